//! Lists the words and operators of expressions by the number of their parts.

/// The words that are before one expression.
#[derive(Clone, Copy, Debug, PartialEq, Eq)]
pub enum OneWord {
    /// `NOT x`.
    Not,
    /// `-x`.
    Minus,
    /// `KNOWN(s[d])`: whether a slot has a value at a date.
    Known,
    /// `LENGTH(l)`: how many elements a list has.
    Length,
    /// `MONTH(d)` of the moment at which a timestep begins.
    Month,
    /// `DAY(d)` of the moment at which a timestep begins.
    Day,
    /// `YEAR(d)` of the moment at which a timestep begins.
    Year,
}

/// The words that are between two expressions, or before both.
#[derive(Clone, Copy, Debug, PartialEq, Eq)]
pub enum TwoWord {
    /// `a OR b`.
    Or,
    /// `a AND b`.
    And,
    /// `x = y`.
    Equal,
    /// `x <> y`.
    Unequal,
    /// `x < y`.
    Less,
    /// `x <= y`.
    LessEqual,
    /// `x > y`.
    Greater,
    /// `x >= y`.
    GreaterEqual,
    /// `x + y`.
    Plus,
    /// `x - y`.
    Minus,
    /// `x * y`.
    Times,
    /// `x / y`, rounded down.
    Divide,
    /// `APPEND(l, e)`: the list with one element more.
    Append,
    /// `ITEM(l, i)`: the element in a place, where places count from 1.
    Item,
}

/// The conversions by a reservoir's table.
#[derive(Clone, Copy, Debug, PartialEq, Eq)]
pub enum ConvertWord {
    /// The elevation in mm at a storage in m3.
    StorageToElevation,
    /// The storage in m3 at an elevation in mm.
    ElevationToStorage,
}
