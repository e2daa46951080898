//! Holds the functions that are declared, and finds them by their names.
ghost use Rattle.std.specs.Prelude.{◌≡◌, ◌++◌, ◌∷◌, [], OnErr, OnOk, option_map, slice_get};
ghost use Rattle.rpl_types.specs.Functions.{signature_named};
ghost use Rattle.rpl_types.specs.Seen.{signature_of, with_first};

use rpl_scope::Scope;
use rpl_tree::RplType;
use rw_base::NoMemory;
use std::alloc::Global;
use std::marker::Model;

/// A function that was declared: its name, the types of its parameters, and that of its result.
#[derive(Drop)]
pub(crate) struct Signature<'a> {
    pub(crate) name: &'a [u8],
    pub(crate) takes: Vec<RplType>,
    pub(crate) result: RplType,
}

/// Functions in the order in which they were declared, and the place of the first one of each name.
#[derive(Drop)]
pub(crate) struct Functions<'a> {
    signatures: Vec<Signature<'a>>,
    places: Scope<'a, usize>,
}

impl<'a> Model for Functions<'a> {
    ghost use Rattle.std.specs.Prelude.{List};
    ghost use Rattle.rpl_types.specs.Functions as F;
    ghost use Rattle.rpl_types.specs.Seen.{AreFirst, signatures_of};

    ghost Value = { List F.Signature };

    ghost view = { λ f. signatures_of f.signatures.items };

    ghost invariant = { λ f. AreFirst f.signatures.items f.places };
}

// Adds the place of a name that has none.
fn add_first<'a>(
    places: &mut Scope<'a, usize>,
    name: &'a [u8],
    place: usize,
) -> Result<(), NoMemory>
    ensures ok { OnOk result (places.new ≡ with_first name.entry.now place places.old) }
    ensures err { OnErr result (places.new ≡ places.old) }
{
    match places.find(name) {
        Some(_) => Ok(()),
        None => places.push(name, place),
    }
}

// The function at a place, if there is one.
fn signature_at<'a, 's>(signatures: &'s [Signature<'a>], place: usize) -> Option<&'s Signature<'a>>
    ensures { option_map (λ signature. signature.now) result ≡ slice_get signatures.now place }
{
    signatures.get(place)
}

impl<'a> Functions<'a> {
    /// Returns no functions.
    pub(crate) fn new(alloc: Global) -> Functions<'a>
        ensures { result ≡ [] }
    {
        Functions {
            signatures: Vec::new(alloc),
            places: Scope::new(alloc),
        }
    }

    /// Returns the first function of a name, if one was declared.
    pub(crate) fn find(&self, name: &'a [u8]) -> Option<&Signature<'a>>
        ensures { option_map (λ found. signature_of found.now) result
            ≡ signature_named self.now name.entry.now }
    {
        match self.places.find(name) {
            None => None,
            Some(place) => signature_at(self.signatures.as_slice(), place),
        }
    }

    /// Adds a function behind all others. The one error is want of memory, after which the functions are those that were there.
    pub(crate) fn push(&mut self, signature: Signature<'a>) -> Result<(), NoMemory>
        ensures ok { OnOk result (self.new ≡ self.old ++ signature_of signature.entry ∷ []) }
        ensures err { OnErr result (self.new ≡ self.old) }
    {
        self.signatures.reserve(1)?;
        add_first(&mut self.places, signature.name, self.signatures.len())?;
        self.signatures.push_reserved(signature);
        Ok(())
    }
}
