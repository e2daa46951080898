//! Tests each rule by which an object solves what it does not know, for each kind that has it, through a catalogue of all
//! methods.
ghost use Rattle.std.specs.Prelude.{◌≡◌, map};
ghost use Rattle.rw_method.specs.Catalogue.{AreInOrder};

use crate::rows::dispatch::{Table, first_unmet};
use crate::rows::kinds::{ALL, methods};
use crate::rows::powers::{HIGH_POWERS, POWERS, POWERS_OUTSIDE_THE_TABLE};
use crate::rows::reservoirs::{
    CONTENTS, EVAPORATION, GIVEN_LEVELS, LEVELS_OUTSIDE_THE_TABLE, PASTS_OUTSIDE_THE_TABLE,
    RELEASES, SIDE_FLOWS, STORAGES, UNKNOWN_PASTS,
};
use crate::rows::streams::{
    BIFURCATIONS, CONFLUENCES, GAGES, GIVEN_REACHES, LAGGED_REACHES, REACHES, ROUTED_REACHES,
};
use crate::rows::users::{CANALS, DIVERSIONS_BY_RULE, REQUESTS};
use rw_method::{Catalogue, CatalogueFault};
use rw_model::{History, Kind, Supply};
use rw_table::Rating;
use std::alloc::{AllocError, Global};
use std::process::Abort;
use std::test::Fail;

fn reach(rt: &impl Abort, alloc: Global, inflows: &[i64], side_flows: bool) -> Kind {
    Kind::Reach {
        lag: if inflows.is_empty() { 0 } else { 2 },
        history: History::of(inflows.to_vec(alloc).expect(rt, "memory")),
        local_inflow: side_flows,
        diversion: side_flows,
        return_flow: side_flows,
    }
}

fn storage(side_flows: bool) -> Kind {
    Kind::Reservoir {
        initial_storage: 1000,
        table: None,
        local_inflow: side_flows,
        diversion: side_flows,
        return_flow: side_flows,
        evaporation: false,
        max_release: None,
    }
}

fn reservoir(rt: &impl Abort, alloc: Global, evaporation: bool, max_release: Option<i64>) -> Kind {
    let rows = [(0, 0), (1000, 500), (3000, 2500)];
    Kind::Reservoir {
        initial_storage: 250,
        table: Some(Rating::of(alloc, &rows).expect(rt, "a table")),
        local_inflow: false,
        diversion: false,
        return_flow: false,
        evaporation,
        max_release,
    }
}

fn power_reservoir(
    rt: &impl Abort,
    alloc: Global,
    rows: &[(i64, i64)],
    tailwater: i64,
    power: u16,
) -> Kind {
    Kind::PowerReservoir {
        initial_storage: 3000,
        table: Rating::of(alloc, rows).expect(rt, "a table"),
        max_release: 1000,
        tailwater,
        power,
    }
}

fn check_powers(rt: &impl Abort, alloc: Global, catalogue: &Catalogue)
    requires { AreInOrder (map (λ b. code (b.vtable, b.value)) catalogue.now.methods.items) }
{
    let low = power_reservoir(rt, alloc, &[(0, 0), (500, 5000)], 100, 10_000);
    check(rt, catalogue, low, POWER);
    let high = power_reservoir(rt, alloc, &[(0, 0), (100_000, 1_000_000)], 10_000, 2500);
    check(rt, catalogue, high, &[HIGH_POWERS]);
}

fn user(supply: Supply) -> Kind {
    Kind::WaterUser {
        depletion: 333,
        supply,
    }
}

fn check(rt: &impl Abort, catalogue: &Catalogue, kind: Kind, tables: &[Table<'_>])
    requires { AreInOrder (map (λ b. code (b.vtable, b.value)) catalogue.now.methods.items) }
{
    match first_unmet(catalogue, &kind, tables) {
        Some(place) => panic!(rt; "table {place} of a kind"),
        None => {}
    }
}

const LAGGED: &[Table<'static>] = &[LAGGED_REACHES, UNKNOWN_PASTS];

const UNLAGGED: &[Table<'static>] = &[REACHES, GIVEN_REACHES];

fn check_reaches(rt: &impl Abort, alloc: Global, catalogue: &Catalogue)
    requires { AreInOrder (map (λ b. code (b.vtable, b.value)) catalogue.now.methods.items) }
{
    check(rt, catalogue, reach(rt, alloc, &[1, 2], false), LAGGED);
    check(rt, catalogue, reach(rt, alloc, &[], true), UNLAGGED);
}

const WITHOUT_TABLE: &[Table<'static>] = &[STORAGES, UNKNOWN_PASTS];

const WITH_TABLE: &[Table<'static>] = &[CONTENTS, GIVEN_LEVELS, LEVELS_OUTSIDE_THE_TABLE];

const EVAPORATING: &[Table<'static>] = &[EVAPORATION, PASTS_OUTSIDE_THE_TABLE];

fn check_reservoirs(rt: &impl Abort, alloc: Global, catalogue: &Catalogue)
    requires { AreInOrder (map (λ b. code (b.vtable, b.value)) catalogue.now.methods.items) }
{
    check(rt, catalogue, storage(false), WITHOUT_TABLE);
    check(rt, catalogue, storage(true), &[SIDE_FLOWS]);
    check(rt, catalogue, reservoir(rt, alloc, false, None), WITH_TABLE);
    check(rt, catalogue, reservoir(rt, alloc, true, None), EVAPORATING);
    check(
        rt,
        catalogue,
        reservoir(rt, alloc, false, Some(60)),
        &[RELEASES],
    );
}

const POWER: &[Table<'static>] = &[POWERS, POWERS_OUTSIDE_THE_TABLE, UNKNOWN_PASTS];

const ROUTED: &[Table<'static>] = &[ROUTED_REACHES, UNKNOWN_PASTS];

const QUARTER: Kind = Kind::RoutedReach {
    initial_content: 1000,
    release: 250,
};

fn check_others(rt: &impl Abort, catalogue: &Catalogue)
    requires { AreInOrder (map (λ b. code (b.vtable, b.value)) catalogue.now.methods.items) }
{
    check(rt, catalogue, Kind::Gage, &[GAGES]);
    check(rt, catalogue, Kind::Confluence, &[CONFLUENCES]);
    check(rt, catalogue, Kind::Bifurcation, &[BIFURCATIONS]);
    check(rt, catalogue, user(Supply::Request), &[REQUESTS]);
    check(rt, catalogue, user(Supply::Rule), &[DIVERSIONS_BY_RULE]);
    check(rt, catalogue, Kind::Canal { seepage: 100 }, &[CANALS]);
}

#[test]
fn each_kind_is_solved_by_its_rules(rt: HostRuntime) -> Result<(), Fail> {
    let catalogue = Catalogue::of(methods(rt.alloc(), ALL)?).expect(&rt, "a catalogue");
    check_others(&rt, &catalogue);
    check_reaches(&rt, rt.alloc(), &catalogue);
    check_reservoirs(&rt, rt.alloc(), &catalogue);
    check_powers(&rt, rt.alloc(), &catalogue);
    check(&rt, &catalogue, QUARTER, ROUTED);
    Ok(())
}

// Why the methods of the kinds with these numbers are no catalogue.
fn fault_of(alloc: Global, numbers: &[u8]) -> Result<Option<CatalogueFault>, AllocError> {
    Ok(Catalogue::of(methods(alloc, numbers)?).err())
}

#[test]
fn gage_and_confluence_are_exchanged(rt: HostRuntime) -> Result<(), Fail> {
    let fault = fault_of(rt.alloc(), &[2, 1, 3, 4, 5, 6, 7, 8, 9])?;
    assert!(rt; matches!(fault, Some(CatalogueFault::WrongPlace(1))));
    Ok(())
}

#[test]
fn eight_methods_are_too_few(rt: HostRuntime) -> Result<(), Fail> {
    let fault = fault_of(rt.alloc(), &[1, 2, 3, 4, 5, 6, 7, 8])?;
    assert!(rt; matches!(fault, Some(CatalogueFault::WrongCount(8))));
    Ok(())
}
