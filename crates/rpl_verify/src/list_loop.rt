//! Lists the two loops over a list.

/// The loops over a list: `foreach` to `next` visits each element, and `map` to `yield` makes a
/// list of a number for each.
#[derive(Clone, Copy)]
pub enum Loop {
    Visiting,
    Mapping,
}
