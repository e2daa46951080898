//! Tests a lake above a reach: what a builder accepts, and what the finished basin returns.
use crate::shared::{lasting, none_is_wrong};
use rw_base::{ObjectNo, SlotNo};
use rw_calendar::{Stamps, Start, StepLength};
use rw_model::{AgendaOrder, Basin, BasinBuilder, History, Kind, RunControl};
use rw_table::Rating;
use std::alloc::Global;
use std::process::Abort;

const START: Start = Start {
    year: 2020,
    month: 1,
    day: 1,
    hour: 0,
};

fn begun(rt: &impl Abort, alloc: Global) -> BasinBuilder {
    let control = RunControl {
        stamps: Stamps::of(alloc, START, StepLength::Hours(24), 10).expect(rt, "ten days"),
        agenda: AgendaOrder::HighFirst,
        object_limit: 16,
        rule_limit: 1,
        ahead: 0,
    };
    BasinBuilder::begin(alloc, control).expect(rt, "limits in range")
}

// A reservoir with all its slots.
fn lake(rt: &impl Abort, alloc: Global) -> Kind {
    let rating = Rating::of(alloc, &[(0, 100), (1000, 500)]).expect(rt, "a table");
    Kind::Reservoir {
        initial_storage: 300,
        table: Some(rating),
        local_inflow: true,
        diversion: true,
        return_flow: true,
        evaporation: true,
        max_release: Some(9),
    }
}

fn reach(rt: &impl Abort, alloc: Global) -> Kind {
    Kind::Reach {
        lag: 2,
        history: History::of([7, 8].to_vec(alloc).expect(rt, "memory")),
        local_inflow: false,
        diversion: false,
        return_flow: false,
    }
}

// A lake whose outflow is linked to the inflow of a reach, which is bound.
fn lake_and_reach<'a>(rt: &impl Abort, alloc: Global) -> &'a Basin {
    let mut builder = begun(rt, alloc);
    builder.object("Lake", lake(rt, alloc)).expect(rt, "a lake");
    builder
        .object("Reach", reach(rt, alloc))
        .expect(rt, "a reach");
    builder.link(&[SlotNo(12), SlotNo(2)]).expect(rt, "a link");
    builder.bound(SlotNo(12), -5, 40).expect(rt, "bounds");
    lasting(rt, alloc, builder.finish().expect(rt, "a basin"))
}

fn has_objects(basin: &Basin) -> bool {
    basin.object_count() == 2
        && basin.object_name(ObjectNo(2)) == "Reach"
        && basin.kind_code(ObjectNo(1)) == 5
}

fn has_slots(basin: &Basin) -> bool {
    basin.slot_count() == 13
        && basin.owner(SlotNo(12)) == ObjectNo(2)
        && basin.slot_name(SlotNo(12)) == "Inflow"
        && basin.find_slot("Reach", "Outflow") == Some(SlotNo(13))
        && basin.settable(SlotNo(8))
        && !basin.settable(SlotNo(9))
        && basin.group(SlotNo(12)) == &[SlotNo(2), SlotNo(12)][..]
        && basin.bounds(SlotNo(2)) == (0, 40)
}

// Slots, timesteps up to the first, and the values before the run.
const BEFORE: &[(u16, i64, Option<i64>)] = &[(4, 0, Some(502)), (12, -1, Some(7)), (12, -2, None)];

fn was_before(basin: &Basin, slot: u16, step: i64, want: Option<i64>) -> bool {
    1 <= slot
        && slot <= basin.slot_count()
        && match basin.before(SlotNo(slot), step) {
            Some(found) => want == Some(found.get()),
            None => want.is_none(),
        }
}

fn first_wrong_before(basin: &Basin, rows: &[(u16, i64, Option<i64>)]) -> Option<usize> {
    for k in 0..rows.len() {
        let (slot, step, want) = rows[k];
        if !was_before(basin, slot, step, want) {
            return Some(k);
        }
    }
    None
}

fn check(rt: &impl Abort, basin: &Basin) {
    assert!(rt; has_objects(basin));
    assert!(rt; has_slots(basin));
    none_is_wrong(rt, first_wrong_before(basin, BEFORE));
}

#[test]
fn a_basin_holds_what_was_added(rt: HostRuntime) {
    let basin = lake_and_reach(&rt, rt.alloc());
    check(&rt, basin);
}
