//! Lists why code is refused.

/// The reasons why code is refused. At one place the first of these is the one that counts, and those from `TooCostly` on come
/// last, at the end of a block.
#[derive(Clone, Copy, Debug, PartialEq, Eq)]
pub enum VerifyKind {
    /// The block is the 201st rule or the 201st function.
    TooMany,
    /// An object, a slot, a reservoir with a table, a predefined function or a function block is not there.
    NoSuchName,
    /// A slot is put that rules cannot set.
    NotSettable,
    /// A function puts.
    PutInFunction,
    /// A put is for a later timestep.
    TargetStep,
    /// A jump goes to a place that is not later.
    BackwardJump,
    /// A jump goes to a later place that is no target, or is in another loop.
    JumpOutside,
    /// A function is called that is not before this block.
    LaterCall,
    /// There are fewer operands than the instruction takes.
    MissingOperand,
    /// An operand is of another kind than the instruction takes.
    WrongOperand,
    /// All the rest: a local that is not there or is of another kind, a loop that is not closed, or operands that are not those
    /// asked for at a target, at the end of a loop or at the end of a block.
    WrongShape,
    /// More than 1,000,000 instruction units in one firing.
    TooCostly,
    /// More than 20,000 looks in one firing.
    TooManyReads,
    /// More than 2,000 puts in one firing.
    TooManyPuts,
    /// More than 1,000,000 words at a time.
    TooDeep,
}
