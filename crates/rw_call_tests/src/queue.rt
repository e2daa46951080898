//! Tests which objects wait where two inflows meet in Join, whose outflow is the inflow of Mark, a gage. Notes only keeps data.
ghost use Rattle.rw_dispatch.specs.Queue.{IsQueueOf};

use crate::shared::basin;
use rw_base::{ObjectNo, SlotNo};
use rw_dispatch::Queue;
use rw_model::Basin;

const JOIN: ObjectNo = ObjectNo(1);

const MARK: ObjectNo = ObjectNo(2);

const LAKE: ObjectNo = ObjectNo(4);

// Slots 1 to 3 are those of Join, 4 and 5 of Mark, 6 of Notes, 7 to 9 of Lake.
const MODEL: &str = r#"
format = 1
[run]
start = "2020-01-01T00:00"
step = "24h"
steps = 3
[[object]]
name = "Join"
kind = "confluence"
[[object]]
name = "Mark"
kind = "gage"
[[object]]
name = "Notes"
kind = "data"
slots = [{ name = "Level", unit = "mm" }]
[[object]]
name = "Lake"
kind = "reservoir"
initial_storage = 9
[[link]]
slots = ["Join.Outflow", "Mark.GageInflow"]
"#;

fn owners_wait_once(basin: &Basin, queue: &mut Queue) -> bool
    requires { IsQueueOf basin.now queue.old }
{
    if basin.slot_count() != 9 {
        return false;
    }
    queue.begin_step(basin);
    let (first, second) = (queue.next(), queue.next());
    queue.wake(basin, &[SlotNo(6), SlotNo(8)], None);
    queue.wake(basin, &[SlotNo(3), SlotNo(1)], Some(JOIN));
    queue.wake(basin, &[SlotNo(9), SlotNo(1)], None);
    first == Some(JOIN)
        && second == Some(MARK)
        && queue.next() == Some(LAKE)
        && queue.next() == Some(MARK)
        && queue.next() == Some(JOIN)
        && queue.next().is_none()
}

#[test]
fn owners_wait_once_in_order_of_waking(rt: HostRuntime) {
    let basin = basin(&rt, rt.alloc(), MODEL);
    let mut queue = Queue::for_basin(rt.alloc(), basin).expect(&rt, "memory");
    assert!(rt; owners_wait_once(basin, &mut queue));
}
