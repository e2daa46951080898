//! Holds what a command asks for besides the table of a run.
use rw_words::Order;

/// What the text of a run tells besides its table, and how it is come to.
#[derive(Clone, Copy)]
pub struct Extras {
    /// Who put each value.
    pub flags: bool,
    /// What happened, line by line.
    pub trace: bool,
    /// With that, what became of each put that was asked for.
    pub asked: bool,
    /// After a batch of edits, which timesteps were run again: the others are taken over.
    pub reuse: bool,
    /// Which of the objects that wait is dispatched first, in a run without rules.
    pub order: Order,
}
