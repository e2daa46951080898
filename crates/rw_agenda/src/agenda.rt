//! Holds the rules of a policy within a timestep, and finds the one that fires next.
ghost use Rattle.std.specs.Prelude.{◌≡◌, ◌≤◌, ◌-◌, ◌^◌, [], IfOk, length, map, min, option_map, true, unwrap_or};
ghost use Rattle.std.specs.List.{sum};
ghost use Rattle.rw_base.specs.declared.number.Cell.{Cell};
ghost use Rattle.rw_model.specs.Draft.{Draft, IsSlot};
ghost use Rattle.rw_series.specs.Series.{held};
ghost use Rattle.rw_agenda.specs.Agenda.{AreMarkedFresh, IsIndexed, IsListed, KeepsOtherMarks, MarksThose, after_firing, agenda_of_marks, first_due_in, forgotten, looked_by, look_room, unfired};

use crate::cell_index::CellIndex;
use crate::last_looks::LastLooks;
use crate::limits::RULES_MAX;
use crate::marks::Marks;
use crate::turns::rule_in_turn;
use rw_base::{Cell, NoMemory, RuleNo};
use rw_firing::Look;
use rw_model::Basin;
use rw_series::Series;
use std::alloc::Global;
use std::marker::Model;

/// The rules of a policy within a timestep, seen as the order in which they are taken, an entry for each with what it looked at
/// when it last fired, if it fired, and for each whether it is marked. The cells of a rule that is not marked are known to hold
/// what it saw, so that they need not be compared. The agenda also has, for each cell, the rules that looked there.
#[derive(Drop)]
pub struct Agenda {
    rules: Vec<LastLooks>,
    marks: Marks,
    index: CellIndex,
}

impl Model for Agenda {
    ghost use Rattle.rw_agenda.specs.Agenda as specs;

    ghost Value = { specs.Agenda };

    ghost view = { λ agenda.
        record
        { order = agenda.marks.order; rules = agenda.rules.items; marks = agenda.marks.flags } };

    ghost invariant = { λ agenda.
        specs.KeepsRules agenda.rules.items agenda.marks.flags agenda.index };
}

impl Agenda {
    /// Returns the agenda of a policy for a basin, of which no rule has fired. `reads` has the maximum number of looks of a
    /// firing of each rule, that of rule 1 first. There are at most `RULES_MAX` rules. The one error is want of memory; no other
    /// call takes any.
    pub fn for_rules(alloc: Global, basin: &Basin, reads: &[u32]) -> Result<Agenda, NoMemory>
        requires few { length reads.now ≤ RULES_MAX }
        ensures order { IfOk result (λ agenda. agenda.order ≡ basin.now.control.agenda) }
        ensures rules { IfOk result (λ agenda. agenda.rules ≡ map unfired reads.now) }
    {
        let rules = unfired_rules(alloc, reads)?;
        let marks = Marks::of_all(alloc, basin.control().agenda, reads.len())?;
        let index = CellIndex::with_room(alloc, basin, sum_of(reads))?;
        Ok(Agenda {
            rules,
            marks,
            index,
        })
    }

    /// Begins a timestep: no rule has fired in it.
    pub fn begin_step(&mut self)
        ensures order { self.new.order ≡ self.old.order }
        ensures rules { self.new.rules ≡ map forgotten self.old.rules }
    {
        forget_all(&mut self.rules);
        self.marks.set_all();
        self.index.clear();
    }

    /// Returns whether it is known that no rule looked at a cell, so that what is written marks none.
    #[inline(always)]
    pub fn is_idle(&self) -> bool
        ensures { result ≡ true → (basin : Draft) (cell : Cell)
            → MarksThose basin cell self.now self.now }
    {
        self.index.is_idle()
    }

    /// Marks, after a put to a cell was written, each rule that looked at a cell which shares its value with this one. Each rule
    /// that was marked stays marked. It takes no memory.
    #[inline(always)]
    pub fn changed(&mut self, basin: &Basin, c: Cell)
        requires { IsSlot basin.now.objects c.slot.0 }
        ensures order { self.new.order ≡ self.old.order }
        ensures rules { self.new.rules ≡ self.old.rules }
        ensures marked { MarksThose basin.now c self.old self.new }
    {
        self.index
            .mark(&mut self.marks, basin.group(c.slot), c.step);
    }

    /// Returns the first rule in the agenda's order that has not fired, or that looked at a cell which holds another value now.
    /// `None` exactly where there is none. `docs/DEFINITIONS.md` says under "Runs" when a rule is due.
    pub fn next(&self, series: &Series) -> Option<RuleNo>
        requires index { IsIndexed self.now (held series.now) }
        ensures { option_map (λ rule. rule.0) result ≡ first_due_in self.now (held series.now) }
    {
        first_changed(&self.marks, self.rules.as_slice(), series)
    }

    /// Returns what a rule looked at when it last fired, and nothing if it has not fired.
    pub fn looked(&self, rule: RuleNo) -> &[Look]
        requires { IsListed self.now rule.0 }
        ensures { result.now ≡ unwrap_or (looked_by self.now rule.0) [] }
    {
        self.rules[usize::from(rule.0) - 1].looks()
    }

    /// Keeps that a rule fired, and looked at these cells, at no more than there is room for. What it looked at before is
    /// forgotten, and of no other rule anything changes.
    pub fn fired(&mut self, rule: RuleNo, looked: &[Look])
        requires known { IsListed self.old rule.0 }
        requires few { length looked.now ≤ look_room self.old rule.0 }
        ensures order { self.new.order ≡ self.old.order }
        ensures rules { self.new.rules ≡ after_firing self.old rule.0 looked.now }
        ensures marked { KeepsOtherMarks rule.0 self.old self.new }
    {
        let place = rule.0 - 1;
        let last = &self.rules[usize::from(place)];
        self.index.watch_all(place, last, looked);
        self.rules[usize::from(place)].keep(looked);
        // Whom a put reaches isn't known then, so that each stays marked.
        if self.index.is_full() {
            self.marks.set_all();
            return;
        }
        self.marks.clear(place);
    }
}

// Rules that haven't fired.
fn unfired_rules(alloc: Global, reads: &[u32]) -> Result<Vec<LastLooks>, NoMemory>
    ensures { IfOk result (λ rules. rules.items ≡ map unfired reads.now) }
{
    let mut rules = Vec::new(alloc);
    for room in reads {
        rules.push(LastLooks::with_room(alloc, *room)?)?;
    }
    Ok(rules)
}

// How many looks all rules have together, at most.
fn sum_of(reads: &[u32]) -> u32
    ensures { result ≡ min (sum reads.now) (2 ^ 32 - 1) }
{
    let mut sum = 0u32;
    for room in reads {
        sum = sum.saturating_add(*room);
    }
    sum
}

// No rule has fired.
fn forget_all(rules: &mut Vec<LastLooks>)
    ensures { rules.new.items ≡ map forgotten rules.old.items }
{
    for rule in rules.iter_mut() {
        rule.forget();
    }
}

// The first rule in the agenda's order that hasn't fired, or that saw what is no longer held, of those that are marked. All that
// haven't fired are.
fn first_changed(marks: &Marks, rules: &[LastLooks], series: &Series) -> Option<RuleNo>
    requires many { length marks.now.flags ≡ length rules.now }
    requires few { length rules.now ≤ RULES_MAX }
    requires fresh { AreMarkedFresh rules.now marks.now.flags }
    requires index { IsIndexed (agenda_of_marks marks.now rules.now) (held series.now) }
    ensures { option_map (λ rule. rule.0) result
        ≡ first_due_in (agenda_of_marks marks.now rules.now) (held series.now) }
{
    let mut turn = 0;
    while let Some(first) = marks.first_from(turn) {
        let rule = rule_in_turn(marks.order(), rules.len() as u16, first);
        if rules[usize::from(rule) - 1].is_changed(series) {
            return Some(RuleNo(rule));
        }
        turn = first + 1;
    }
    None
}
