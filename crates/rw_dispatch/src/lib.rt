//! Dispatches objects. `Queue` holds the objects that wait, in the order of the events since which they wait, and `Pick` says
//! which of them is next. `dispatch` lets one of them solve what it can from what its slots hold, and leaves the cells and the
//! queue as the event of that dispatch says. Only making a queue takes memory.
#![tactic(auto)]

mod dispatch_end;
mod dispatched;
mod judged;
mod owners;
mod past;
mod pick;
mod queue;
mod turn;
mod view;
mod workspace;
mod write_list;
mod written;

pub use dispatch_end::DispatchEnd;
pub use dispatched::Dispatched;
pub use past::past_cell;
pub use pick::{Newest, Oldest, Pick};
pub use queue::Queue;
pub use turn::{dispatch, judge_dispatch};
pub use view::slot_or_none;
pub use workspace::Workspace;
pub use write_list::WriteList;
pub use written::make;
