//! Reads the start of a run from its text.
ghost use Rattle.std.specs.Prelude.{◌≡◌, ◌+◌, ◌<◌, ◌≤◌, IsTrue, length, slice_index};
ghost use Rattle.rw_base.specs.Byte.{is_digit};
ghost use Rattle.rw_model_toml.specs.StartText.{is_open, fits_byte, fits_forms, two_digits, start_in};

use rw_calendar::Start;

// Whether the byte stands where the form has that byte.
fn fits_byte(form: u8, b: u8) -> bool
    ensures { result ≡ fits_byte form b }
{
    match form {
        b'Y' | b'M' | b'D' | b'H' => 48 <= b && b <= 57,
        _ => b == form,
    }
}

// Whether the text has the form.
fn fits(form: &[u8], text: &[u8]) -> bool
    ensures { result ≡ fits_forms form.now text.now }
{
    if form.len() != text.len() {
        return false;
    }
    for place in 0..form.len() {
        if !fits_byte(form[place], text[place]) {
            return false;
        }
    }
    true
}

// The number in two digits from this place on.
fn two_digits(text: &[u8], place: usize) -> u8
    requires within { place + 1 < length text.now }
    requires tens { IsTrue (is_digit (slice_index text.now place)) }
    requires ones { IsTrue (is_digit (slice_index text.now (place + 1))) }
    ensures value { result ≡ two_digits text.now place }
    ensures few { result ≤ 99 }
{
    (text[place] - 48) * 10 + (text[place + 1] - 48)
}

/// Returns the start that the text names. `None` exactly where the text has another form than `YYYY-MM-DDTHH:00`.
pub(crate) fn start_in(text: &str) -> Option<Start>
    ensures { result ≡ start_in text.now }
{
    let bytes = text.as_bytes();
    if !fits(b"YYYY-MM-DDTHH:00", bytes) {
        return None;
    }
    let year = i16::from(two_digits(bytes, 0)) * 100 + i16::from(two_digits(bytes, 2));
    Some(Start {
        year,
        month: two_digits(bytes, 5) as i8,
        day: two_digits(bytes, 8) as i8,
        hour: two_digits(bytes, 11) as i8,
    })
}
