//! Lists the instructions of code.
use crate::OperandKinds;
use rw_model::Name;
use std::mem::size_of;

// A code has up to a third as many instructions as its text has bytes.
const _: () = prove!(size_of::<Instruction>() == 64);

/// The instructions of a block. A local is named by its number, and so is a block; a place is a line of the block. Each counts
/// from 0, but blocks from 1.
#[derive(Debug, Drop)]
pub enum Instruction {
    /// A number, from -Q to Q.
    Num(i64),
    /// A truth value.
    Bool(bool),
    /// The timestep of the firing.
    Now,
    /// A slot.
    Slot {
        /// The object that has it.
        object: Name,
        /// Its name there.
        slot: Name,
    },
    /// Fetches the value of a local.
    Load(u32),
    /// Makes a value that of a local.
    Store(u32),
    /// The sum.
    Add,
    /// The difference.
    Sub,
    /// The product.
    Mul,
    /// The quotient, rounded down.
    Div,
    /// The number with the other sign.
    Neg,
    /// The timestep that is this many later.
    Shift,
    /// The timestep that is this many earlier.
    Back,
    /// How many timesteps the first is after the second.
    Between,
    /// Whether two numbers are equal.
    Eq,
    /// Whether the first number is less.
    Lt,
    /// Whether the first number is at most the second.
    Le,
    /// Whether two timesteps are equal.
    Deq,
    /// Whether the first timestep is earlier.
    Dlt,
    /// Whether the first timestep is no later than the second.
    Dle,
    /// The other truth value.
    Not,
    /// What a slot holds at a timestep.
    Read,
    /// Whether a slot holds a value at a timestep.
    Known,
    /// The month in which a timestep begins.
    Month,
    /// The day of the month on which a timestep begins.
    Day,
    /// The year in which a timestep begins.
    Year,
    /// The elevation in mm at which a reservoir has a storage in m3.
    ToElevation(Name),
    /// The storage in m3 that a reservoir has at an elevation in mm.
    ToStorage(Name),
    /// Calls a predefined function.
    Call(Name),
    /// Calls a function block, by its number.
    Invoke(u32),
    /// A list of this many values.
    List(u16),
    /// The list with one more value.
    Append,
    /// The same list, with room for this many values.
    Widen(u16),
    /// A value of a list, by its place.
    Item,
    /// The number of values in a list.
    Length,
    /// Goes on at a place.
    Jump(u32),
    /// Goes on at a place where the truth value is false.
    Branch(u32),
    /// A place to which jumps go, with the kinds of all operands there, bottom first.
    Target(OperandKinds),
    /// Begins the loop up to its `Next`, once for each value of a list, which becomes that of a local.
    Foreach(u32),
    /// Ends a loop that `Foreach` began.
    Next,
    /// Begins the loop up to its `Yield`, once for each value of a list, which becomes that of a local.
    Map(u32),
    /// Ends a loop that `Map` began: its number goes into the list that the loop makes.
    Yield,
    /// Gives a slot a value, a number of timesteps ahead.
    Put {
        /// The object that has the slot.
        object: Name,
        /// The slot's name there.
        slot: Name,
        /// How many timesteps after that of the firing.
        ahead: u8,
    },
}
