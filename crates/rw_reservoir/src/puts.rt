//! Puts all that a reservoir solves and derives once its balance is solved.
ghost use Rattle.std.specs.Prelude.{◌≡◌, option_map, ◌<◌, ◌+◌, ◌≤◌, ◌++◌, [], length, OnOk, IfErr};
ghost use Rattle.rw_method.specs.Puts.{solved_put, contents_puts, evaporation_put, release_puts, puts_or_answer, is_bounded};
ghost use Rattle.rw_method.specs.Solve.{AllFit};
ghost use Rattle.rw_method.specs.Asking.{Asks, can_get};
ghost use Rattle.rw_reservoir.specs.Answering.{answer_by_puts};

use crate::release::{ask_evaporation, ask_release};
use rw_method::places::{OUTFLOW, POOL_ELEVATION, STORAGE};
use rw_method::{Balanced, Given, PutList, Solved, View, ask_level, ask_solved, known_after};
use rw_table::Rating;

// Puts the term that was solved, and what is known of the contents by it.
#[inline(always)]
fn ask_contents(
    view: &View,
    table: Option<&Rating>,
    puts: &mut PutList,
    balanced: Balanced,
) -> Result<(), Solved>
    requires { length puts.old < 7 }
    ensures asks { Asks (can_get (option_map (λ rating. rating.now) table.entry) view.entry.now)
        (contents_puts (option_map (λ rating. rating.now) table.entry) view.entry.now balanced)
        puts.old puts.new result }
    ensures bounded { OnOk result (AllFit (is_bounded view.entry.now) (solved_put balanced)) }
    ensures room { OnOk result (length puts.new ≤ length puts.old + 2) }
{
    match ask_solved(view, table, puts, balanced) {
        Ok(()) => ask_level(
            view,
            table,
            puts,
            view.given(STORAGE),
            view.given(POOL_ELEVATION),
            balanced,
        ),
        Err(answer) => Err(answer),
    }
}

// Puts how much evaporates, and the parts of the outflow.
#[inline(always)]
fn ask_derived(
    view: &View,
    table: Option<&Rating>,
    puts: &mut PutList,
    evaporation: bool,
    evaporated: Option<i128>,
    max_release: Option<i64>,
    outflow: Given,
) -> Result<(), Solved>
    requires { length puts.old < 6 }
    ensures asks { Asks (can_get (option_map (λ rating. rating.now) table.entry) view.entry.now)
        (evaporation_put evaporation evaporated ++ release_puts max_release outflow)
        puts.old puts.new result }
{
    match ask_evaporation(view, table, puts, evaporation, evaporated) {
        Ok(()) => ask_release(view, table, puts, max_release, outflow),
        Err(answer) => Err(answer),
    }
}

// Puts all of it, one after the other.
#[inline(always)]
fn ask_all(
    view: &View,
    table: Option<&Rating>,
    puts: &mut PutList,
    evaporation: bool,
    evaporated: Option<i128>,
    max_release: Option<i64>,
    balanced: Balanced,
) -> Result<(), Solved>
    requires { puts.old ≡ [] }
    ensures { puts_or_answer puts.new result
        ≡ answer_by_puts (option_map (λ rating. rating.now) table.entry)
        evaporation evaporated max_release view.entry.now balanced }
{
    match ask_contents(view, table, puts, balanced) {
        Ok(()) => ask_derived(
            view,
            table,
            puts,
            evaporation,
            evaporated,
            max_release,
            known_after(view, balanced, OUTFLOW),
        ),
        Err(answer) => Err(answer),
    }
}

/// Returns the answer once the balance is solved: all that is put, or the first put that its slot cannot get. Where all fit,
/// `put_all` gives the same answer sooner.
#[inline(never)]
pub(crate) fn puts_or_misfit(
    view: &View,
    table: Option<&Rating>,
    evaporation: bool,
    evaporated: Option<i128>,
    max_release: Option<i64>,
    balanced: Balanced,
) -> Solved
    ensures { result
        ≡ answer_by_puts (option_map (λ rating. rating.now) table.entry)
        evaporation evaporated max_release view.entry.now balanced }
{
    let mut puts = PutList::none();
    match ask_all(
        view,
        table,
        &mut puts,
        evaporation,
        evaporated,
        max_release,
        balanced,
    ) {
        Ok(()) => Solved::Puts(puts),
        Err(answer) => answer,
    }
}

/// Writes the answer once the balance is solved, in the place of another answer. A put that its slot cannot get is rare: what it
/// answers is not handed about, since it is large, but found anew.
#[inline(always)]
pub(crate) fn put_all(
    view: &View,
    table: Option<&Rating>,
    evaporation: bool,
    evaporated: Option<i128>,
    max_release: Option<i64>,
    balanced: Balanced,
    solved: &mut Solved,
)
    ensures { solved.new
        ≡ answer_by_puts (option_map (λ rating. rating.now) table.entry)
        evaporation evaporated max_release view.entry.now balanced }
{
    solved.clear();
    let asked = match solved {
        Solved::Puts(puts) => ask_all(
            view,
            table,
            puts,
            evaporation,
            evaporated,
            max_release,
            balanced,
        ),
        _ => Ok(()),
    };
    if asked.is_err() {
        *solved = puts_or_misfit(view, table, evaporation, evaporated, max_release, balanced);
    }
}
