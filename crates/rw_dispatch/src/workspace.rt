//! Holds what dispatches work in, one after another.
ghost use Rattle.std.specs.Prelude.{◌≡◌};

use crate::dispatch_end::DispatchEnd;
use crate::view::blank_view;
use crate::write_list::WriteList;
use rw_method::{Solved, View};

/// What dispatches work in, one after another. A dispatch fills all of it in anew, but for whether it keeps what is asked for.
#[derive(Drop)]
pub struct Workspace {
    /// What the object sees.
    pub view: View,
    /// The result of its method.
    pub solved: Solved,
    /// How it ended.
    pub end: DispatchEnd,
    /// What is to be written.
    pub writes: WriteList,
    /// Whether it keeps all that is asked for.
    pub keeps: bool,
    /// All that is asked for, where it keeps that.
    pub asked: WriteList,
}

impl Workspace {
    /// Returns the workspace of no dispatch. It takes no memory.
    pub fn new(keeps: bool) -> Workspace
        ensures { result.keeps ≡ keeps }
    {
        Workspace {
            view: blank_view(),
            solved: Solved::Idle,
            end: DispatchEnd::Idle,
            writes: WriteList::none(),
            keeps,
            asked: WriteList::none(),
        }
    }
}
