//! Solves a reservoir in a dispatch, faults first.
ghost use Rattle.std.specs.Prelude.{◌≡◌, option_map, ℤ, Bool, List, None, Some, true};
ghost use Rattle.std.specs.Option.{ForSome};
ghost use Rattle.rw_model.specs.declared.kind.Kind.TheVariants as Kind;
ghost use Rattle.rw_method.specs.declared.places.TheConstants.{RESERVOIR_SIDE};
ghost use Rattle.rw_method.specs.declared.put.Put.{Put};
ghost use Rattle.rw_method.specs.Term.{IsWithin};
ghost use Rattle.rw_method.specs.Balance.{side_flows};
ghost use Rattle.rw_method.specs.Solve.{answer, fault_of_past, solve_of};
ghost use Rattle.rw_reservoir.specs.Answering.{fault_of_held, reservoir_answer};

use crate::balance::{balance, is_empty, is_short};
use crate::evaporation::evaporation_of;
use crate::puts::{put_all, puts_or_misfit};
use rw_base::Qty;
use rw_method::places::RESERVOIR_SIDE;
use rw_method::{
    Balanced, Method, Solved, View, ended, fault_of_level, fault_of_past, side_flows, stores,
};
use rw_model::Kind;
use rw_table::Rating;

/// The method of reservoirs: what flows in and does not flow out is stored.
#[derive(Debug, Drop)]
pub struct ReservoirMethod;

// What is answered where something is wrong with what the reservoir holds.
fn faulty(balanced: Balanced, fault: Solved) -> Solved
    ensures { (fit : Put → Bool) (puts : List Put)
        → result ≡ answer fit puts balanced (Some fault) }
{
    match balanced {
        Balanced::Idle => Solved::Idle,
        Balanced::Holds | Balanced::Solves { .. } | Balanced::Conflicts { .. } => fault,
    }
}

// What is answered, by what the balance comes to, and by what is wrong with the storage before or with the contents that are given.
#[inline(never)]
fn answer_by_faults(
    view: &View,
    table: Option<&Rating>,
    evaporation: bool,
    evaporated: Option<i128>,
    max_release: Option<i64>,
    balanced: Balanced,
) -> Solved
    ensures { result
        ≡ reservoir_answer (option_map (λ rating. rating.now) table.entry)
        evaporation evaporated max_release view.entry.now balanced }
{
    if let Some(fault) = fault_of_past(evaporation, table, view.past) {
        return faulty(balanced, fault);
    }
    if let Some(fault) = fault_of_level(view, table) {
        return faulty(balanced, fault);
    }
    match ended(balanced, None) {
        Some(answer) => answer,
        None => puts_or_misfit(view, table, evaporation, evaporated, max_release, balanced),
    }
}

// Whether nothing is wrong with the storage before. Its clause is of `true` alone, as that of `is_faultless`.
fn is_past_faultless(evaporation: bool, table: Option<&Rating>, past: Option<Qty>) -> bool
    ensures { result ≡ true
        → fault_of_past evaporation (option_map (λ rating. rating.now) table.entry) past ≡ None }
{
    match (past, table) {
        (Some(storage), Some(rating)) if evaporation => rating.has_elev(storage.get()),
        _ => true,
    }
}

// Whether nothing is wrong with the storage before, and no contents are given. It only spares time, since `answer_by_faults` answers
// the same: so its clause is of `true` alone, and a body that always says `false` would be proved, too.
fn is_faultless(view: &View, table: Option<&Rating>, evaporation: bool) -> bool
    ensures { result ≡ true
        → fault_of_held (option_map (λ rating. rating.now) table.entry) evaporation view.entry.now
        ≡ None }
{
    is_empty(view) && is_past_faultless(evaporation, table, view.past)
}

// The same in the place of another answer. What is solved, of no contents that are given, is put where it stands.
fn answer_by(
    view: &View,
    table: Option<&Rating>,
    evaporation: bool,
    evaporated: Option<i128>,
    max_release: Option<i64>,
    balanced: Balanced,
    solved: &mut Solved,
)
    ensures { solved.new
        ≡ reservoir_answer (option_map (λ rating. rating.now) table.entry)
        evaporation evaporated max_release view.entry.now balanced }
{
    match balanced {
        Balanced::Solves { .. } if is_faultless(view, table, evaporation) => put_all(
            view,
            table,
            evaporation,
            evaporated,
            max_release,
            balanced,
            solved,
        ),
        _ => {
            *solved = answer_by_faults(view, table, evaporation, evaporated, max_release, balanced);
        }
    }
}

// What a dispatch of a reservoir answers, beside what flows by the side.
#[inline(never)]
pub(crate) fn solve_reservoir(
    view: &View,
    table: Option<&Rating>,
    side: Option<i128>,
    evaporation: bool,
    max_release: Option<i64>,
    solved: &mut Solved,
)
    requires { ForSome side (IsWithin 3) }
    ensures { (initial_storage : ℤ) (local_inflow diversion return_flow : Bool)
        → side ≡ side_flows view.entry.now RESERVOIR_SIDE local_inflow diversion return_flow
        → solved.new
        ≡ solve_of
        (Kind.Reservoir initial_storage (option_map (λ rating. rating.now) table.entry) local_inflow
        diversion return_flow evaporation
        max_release) view.entry.now }
{
    if side.is_none() {
        *solved = Solved::Idle;
        return;
    }
    let contents = stores(view, table);
    let evaporated = evaporation_of(evaporation, table, view);
    let balanced = balance(view, &contents, side, evaporated);
    answer_by(
        view,
        table,
        evaporation,
        evaporated,
        max_release,
        balanced,
        solved,
    );
}

impl Method for ReservoirMethod {
    ghost code = { λ _. 5 };

    fn code(&self) -> u8 {
        5
    }

    fn solve(&self, kind: &Kind, view: &View, solved: &mut Solved) {
        match kind {
            Kind::Reservoir { .. } if is_short(view) => *solved = Solved::Idle,
            Kind::Reservoir {
                table,
                local_inflow,
                diversion,
                return_flow,
                evaporation,
                max_release,
                ..
            } => {
                let side = side_flows(
                    view,
                    RESERVOIR_SIDE,
                    *local_inflow,
                    *diversion,
                    *return_flow,
                );
                let rating = table.as_ref();
                solve_reservoir(view, rating, side, *evaporation, *max_release, solved);
            }
            _ => unreachable!(),
        }
    }
}
