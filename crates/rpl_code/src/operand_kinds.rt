//! Holds the kinds of operands, in pieces that several places share.
ghost use Rattle.std.specs.Prelude.{◌≡◌, ◌≤◌, [], flat_map, IfOk, IfSome, IsTrue};

use crate::{Kinds, ValueKind};
use rw_base::NoMemory;
use std::alloc::Global;
use std::marker::Model;
use std::rc::Rc;

// How many kinds a piece has. A place keeps fewer than twice as many of its own.
const PIECE: usize = 128;

// Kinds that several places may keep.
#[derive(Debug, Drop)]
struct Piece {
    kinds: Rc<Vec<ValueKind>>,
}

impl Model for Piece {
    ghost use Rattle.std.specs.Prelude.{List};
    ghost use Rattle.rpl_code.specs.declared.kind.ValueKind.{ValueKind};

    ghost Value = { List ValueKind };

    ghost view = { λ piece. piece.kinds.value.items };
}

impl Piece {
    fn of(alloc: Global, kinds: &[ValueKind]) -> Result<Piece, NoMemory>
        ensures { IfOk result (λ piece. piece ≡ kinds.now) }
    {
        let kinds = Rc::new(alloc, Vec::from_slice(alloc, kinds)?)?;
        Ok(Piece { kinds })
    }

    fn share(&self) -> Result<Piece, NoMemory>
        ensures { IfOk result (λ piece. piece ≡ self.now) }
    {
        let kinds = self.kinds.clone()?;
        Ok(Piece { kinds })
    }

    fn as_slice(&self) -> &[ValueKind]
        ensures { result.now ≡ self.now }
    {
        self.kinds.as_slice()
    }
}

// Pieces one behind the other, which several places may keep.
#[derive(Debug, Drop)]
struct Pieces {
    pieces: Rc<Vec<Piece>>,
}

impl Model for Pieces {
    ghost use Rattle.std.specs.Prelude.{List};
    ghost use Rattle.rpl_code.specs.declared.kind.ValueKind.{ValueKind};

    ghost Value = { List (List ValueKind) };

    ghost view = { λ pieces. pieces.pieces.value.items };
}

impl Pieces {
    fn of(alloc: Global, pieces: Vec<Piece>) -> Result<Pieces, NoMemory>
        ensures { IfOk result (λ made. made ≡ pieces.items) }
    {
        let pieces = Rc::new(alloc, pieces)?;
        Ok(Pieces { pieces })
    }

    fn share(&self) -> Result<Pieces, NoMemory>
        ensures { IfOk result (λ pieces. pieces ≡ self.now) }
    {
        let pieces = self.pieces.clone()?;
        Ok(Pieces { pieces })
    }

    fn as_slice(&self) -> &[Piece]
        ensures { result.now ≡ self.now }
    {
        self.pieces.as_slice()
    }
}

/// The kinds at the bottom that the next place may share with the last one, which contracts see as a list.
#[derive(Debug, Drop)]
pub struct SharedKinds {
    pieces: Option<Pieces>,
    length: usize,
}

impl Model for SharedKinds {
    ghost use Rattle.std.specs.Prelude.{List};
    ghost use Rattle.rpl_code.specs.declared.kind.ValueKind.{ValueKind};
    ghost use Rattle.rpl_code.specs.Pieces.{pieces_joined};

    ghost Value = { List ValueKind };

    ghost view = { λ shared. pieces_joined shared.pieces };
}

impl SharedKinds {
    /// Returns no kinds. It takes no memory.
    pub fn none() -> SharedKinds
        ensures { result ≡ [] }
    {
        SharedKinds {
            pieces: None,
            length: 0,
        }
    }

    fn share(&self) -> Result<SharedKinds, NoMemory>
        ensures { IfOk result (λ shared. shared ≡ self.now) }
    {
        let pieces = match &self.pieces {
            None => None,
            Some(pieces) => Some(pieces.share()?),
        };
        Ok(SharedKinds {
            pieces,
            length: self.length,
        })
    }
}

fn is_same(a: ValueKind, b: ValueKind) -> bool
    ensures { IsTrue result → a ≡ b }
{
    match (a, b) {
        (ValueKind::N, ValueKind::N)
        | (ValueKind::B, ValueKind::B)
        | (ValueKind::D, ValueKind::D)
        | (ValueKind::S, ValueKind::S) => true,
        (ValueKind::NList(m), ValueKind::NList(n)) | (ValueKind::SList(m), ValueKind::SList(n)) => {
            m == n
        }
        _ => false,
    }
}

fn are_same(a: &[ValueKind], b: &[ValueKind]) -> bool
    ensures { IsTrue result → a.now ≡ b.now }
{
    if a.len() != b.len() {
        return false;
    }
    for place in 0..a.len() {
        if !is_same(a[place], b[place]) {
            return false;
        }
    }
    true
}

// Whether the pieces are these kinds.
fn are_pieces_of(pieces: &[Piece], kinds: &[ValueKind]) -> bool
    ensures { IsTrue result → flat_map (λ piece. piece) pieces.now ≡ kinds.now }
{
    let mut left = kinds;
    for piece in pieces {
        let length = piece.as_slice().len();
        if length > left.len() {
            return false;
        }
        let (first, others) = left.split_at(length);
        if !are_same(piece.as_slice(), first) {
            return false;
        }
        left = others;
    }
    left.is_empty()
}

// A piece of these kinds, which is this one where it has them.
fn piece_of(alloc: Global, kinds: &[ValueKind], before: Option<&Piece>) -> Result<Piece, NoMemory>
    ensures { IfOk result (λ piece. piece ≡ kinds.now) }
{
    match before {
        Some(piece) if are_same(piece.as_slice(), kinds) => piece.share(),
        _ => Piece::of(alloc, kinds),
    }
}

// The kinds in pieces, which are the earlier ones where these have the same kinds.
fn cut_up(alloc: Global, kinds: &[ValueKind], before: &[Piece]) -> Result<Vec<Piece>, NoMemory>
    ensures { IfOk result (λ pieces. flat_map (λ piece. piece) pieces.items ≡ kinds.now) }
{
    let mut pieces = Vec::new(alloc);
    let mut left = kinds;
    while !left.is_empty() {
        let (first, others) = left.split_at(left.len().min(PIECE));
        let piece = piece_of(alloc, first, before.get(pieces.len()))?;
        pieces.push(piece)?;
        left = others;
    }
    Ok(pieces)
}

fn shared_of(
    alloc: Global,
    kinds: &[ValueKind],
    before: &SharedKinds,
) -> Result<SharedKinds, NoMemory>
    ensures { IfOk result (λ shared. shared ≡ kinds.now) }
{
    let pieces = match &before.pieces {
        None => cut_up(alloc, kinds, &[])?,
        Some(pieces) => {
            if are_pieces_of(pieces.as_slice(), kinds) {
                return before.share();
            }
            cut_up(alloc, kinds, pieces.as_slice())?
        }
    };
    Ok(SharedKinds {
        pieces: Some(Pieces::of(alloc, pieces)?),
        length: kinds.len(),
    })
}

// How many of so many kinds lie in pieces: as many as at the last place, while those above are fewer than twice a piece's.
// So pieces are made anew only where as many operands came or went as a piece has.
fn shared_length(kinds: usize, last: usize) -> usize
    requires { 256 ≤ kinds }
    ensures { result ≤ kinds }
{
    if last <= kinds && kinds - last < 2 * PIECE {
        last
    } else {
        kinds - kinds % PIECE - PIECE
    }
}

/// The kinds of all operands at a place, bottom first, which contracts see as a list. Those at the bottom may be shared with
/// other places, so that what the places of a block keep grows no faster than the block does.
#[derive(Debug, Drop)]
pub struct OperandKinds {
    shared: SharedKinds,
    own: Kinds,
}

impl Model for OperandKinds {
    ghost use Rattle.std.specs.Prelude.{List, ◌++◌};
    ghost use Rattle.rpl_code.specs.declared.kind.ValueKind.{ValueKind};

    ghost Value = { List ValueKind };

    ghost view = { λ kinds. kinds.shared ++ kinds.own };
}

impl OperandKinds {
    /// Returns these kinds, in their order, none of them shared. It takes no memory.
    pub fn of(kinds: Kinds) -> OperandKinds
        ensures { result ≡ kinds }
    {
        OperandKinds {
            shared: SharedKinds::none(),
            own: kinds,
        }
    }

    /// Returns these kinds, in their order. What the last place shares is shared with this one where the kinds are the same, and
    /// is what this place shares from then on.
    pub fn sharing(
        alloc: Global,
        kinds: &[ValueKind],
        last: &mut SharedKinds,
    ) -> Result<OperandKinds, NoMemory>
        ensures { IfOk result (λ made. made ≡ kinds.now) }
    {
        if kinds.len() < 2 * PIECE {
            return Ok(OperandKinds::of(Kinds::of(Vec::from_slice(alloc, kinds)?)));
        }
        let (low, high) = kinds.split_at(shared_length(kinds.len(), last.length));
        let shared = shared_of(alloc, low, last)?;
        *last = shared.share()?;
        Ok(OperandKinds {
            shared,
            own: Kinds::of(Vec::from_slice(alloc, high)?),
        })
    }

    /// Returns all of them, where none is shared. It takes no memory.
    pub fn as_slice(&self) -> Option<&[ValueKind]>
        ensures { IfSome result (λ kinds. kinds.now ≡ self.now) }
    {
        match &self.shared.pieces {
            None => Some(self.own.as_slice()),
            Some(_) => None,
        }
    }

    /// Returns all of them, in their order.
    pub fn to_vec(&self) -> Result<Vec<ValueKind>, NoMemory>
        ensures { IfOk result (λ kinds. kinds.items ≡ self.now) }
    {
        let mut kinds = Vec::new(self.own.allocator());
        if let Some(pieces) = &self.shared.pieces {
            for piece in pieces.as_slice() {
                kinds.extend_from_slice(piece.as_slice())?;
            }
        }
        kinds.extend_from_slice(self.own.as_slice())?;
        Ok(kinds)
    }
}
