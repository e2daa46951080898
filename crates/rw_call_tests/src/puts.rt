//! Tests what a dispatch puts: one put that is refused behind another; and what is held where there is a greatest release, and in
//! a routed reach.
ghost use Rattle.std.specs.Prelude.{◌≡◌, ◌<◌, OnErr, Some, length, pos};
ghost use Rattle.rw_model.specs.declared.kind.Kind.TheVariants as Kind;
ghost use Rattle.rw_method.specs.Balanced.{IsBalanced, IsHeld, IsReleased};
ghost use Rattle.rw_method.specs.declared.places.TheConstants.{CONTENT, INFLOW, OUTFLOW, RELEASE, SPILL};
ghost use Rattle.rw_method.specs.declared.view.View.{View as Seen};

use rw_base::ObjectNo;
use rw_method::{PutList, Solved, View, add_put};

// A put that is refused leaves the others as they were.
fn add(view: &View, puts: &mut PutList, place: u8, value: i128) -> Result<(), Solved>
    requires { length puts.old < 8 }
    ensures { OnErr result (puts.new ≡ puts.old) }
{
    add_put(view, puts, place, value, 0)
}

fn only_the_first_is_put(view: &View) -> bool {
    let mut puts = PutList::none();
    if add(view, &mut puts, 1, 100).is_err() {
        return false;
    }
    puts.as_slice().len() == 1
        && add(view, &mut puts, 2, 101).is_err()
        && puts.as_slice().len() == 1
}

#[test]
fn a_refused_put_leaves_those_before_it(rt: HostRuntime) {
    let view = View {
        own: ObjectNo(1),
        now: [None; 12],
        past: None,
        bounds: [(0, 100); 12],
    };
    assert!(rt; only_the_first_is_put(&view));
}

// Of 600 that are let out, 500 are released, where that is the greatest release, and 100 are spilled.
fn released()
    ensures release { (view : Seen) → IsReleased (Some (pos 500)) view (pos 600)
        → IsHeld view RELEASE (pos 500) }
    ensures spill { (view : Seen) → IsReleased (Some (pos 500)) view (pos 600)
        → IsHeld view SPILL (pos 100) }
{}

// Of 1001 that a routed reach holds, a quarter flows out, rounded down, and all the rest stays.
fn routed()
    ensures { (view : Seen) → IsBalanced (Kind.RoutedReach (pos 1001) 250) view
        → view.past ≡ Some (pos 1001) → IsHeld view INFLOW (pos 0)
        → IsHeld view OUTFLOW (pos 250) → IsHeld view CONTENT (pos 751) }
{}
