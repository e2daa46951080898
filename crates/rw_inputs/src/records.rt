//! Reads the records of a text with `csv`, one after another.
ghost use Rattle.std.specs.Prelude.{◌≡◌, [], ◌∷◌, true, false, Ok};
ghost use Rattle.csv.specs.Records.{fields_of};
ghost use Rattle.rw_inputs.specs.Records.{records_of};

use csv::{ByteRecord, Reader, ReaderBuilder};
use rw_base::NoMemory;
use std::alloc::Global;
use std::marker::Model;

/// The records of a text that are left to be read, seen as a list of lists of fields.
#[derive(Drop)]
pub(crate) struct Records<'a> {
    reader: Reader<&'a [u8]>,
}

impl<'a> Model for Records<'a> {
    ghost use Rattle.std.specs.Prelude.{List};
    ghost use Rattle.rw_inputs.specs.Records.{Fields, IsPlainOrFailed, records_left};

    ghost Value = { List Fields };

    ghost view = { λ r. records_left r.reader };

    ghost invariant = { λ r. IsPlainOrFailed r.reader };
}

impl<'a> Records<'a> {
    /// Returns all records of a text, after its byte order mark if it has one. They may have any numbers of fields, and the first
    /// one is like the others.
    pub(crate) fn of(alloc: Global, text: &'a [u8]) -> Records<'a>
        ensures { result ≡ records_of text.now }
    {
        Records {
            reader: ReaderBuilder::new()
                .has_headers(false)
                .flexible(true)
                .from_reader(alloc, text),
        }
    }

    /// Reads the next record into `row`, and returns whether there was one.
    pub(crate) fn read(&mut self, row: &mut ByteRecord) -> Result<bool, NoMemory>
        ensures next { result ≡ Ok true → self.old ≡ fields_of row.new ∷ self.new }
        ensures end { result ≡ Ok false → self.old ≡ [] }
    {
        let Ok(found) = self.reader.read_byte_record(row) else {
            return Err(NoMemory);
        };
        Ok(found)
    }
}
