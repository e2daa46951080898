//! Holds what a rule looked at when it last fired, and decides whether that has changed.
ghost use Rattle.std.specs.Prelude.{◌≡◌, ◌≤◌, ◌+◌, ◌++◌, [], Some, IfOk, length, not, unwrap_or};
ghost use Rattle.rw_run.specs.Log.{value_in};
ghost use Rattle.rw_run.specs.Next.{is_changed, is_same_value};
ghost use Rattle.rw_series.specs.Series.{held};
ghost use Rattle.rw_agenda.specs.Agenda.{unfired};

use crate::limits::MANY_LOOKS;
use rw_base::NoMemory;
use rw_firing::Look;
use rw_series::Series;
use std::alloc::Global;
use std::marker::Model;

/// What a rule looked at when it last fired, with room for a number of looks, and the maximum number of looks of its firings in
/// the timestep.
#[derive(Drop)]
pub(crate) struct LastLooks {
    room: usize,
    fired: bool,
    most: usize,
    looks: Vec<Look>,
}

impl Model for LastLooks {
    ghost use Rattle.std.specs.Prelude.{◌≤◌, Some, None, if◌then◌else◌};
    ghost use Rattle.rw_agenda.specs.Agenda as specs;

    ghost Value = { specs.Entry };

    ghost view = { λ last.
        record { room = last.room; looked = if last.fired then Some last.looks.items else None } };

    ghost invariant = { λ last. last.room ≤ last.looks.cap };
}

impl LastLooks {
    /// Returns the looks of a rule that has not fired. No other call takes memory.
    pub(crate) fn with_room(alloc: Global, room: u32) -> Result<LastLooks, NoMemory>
        ensures { IfOk result (λ last. last ≡ unfired room) }
    {
        let room = room as usize;
        let looks = Vec::with_capacity(alloc, room)?;
        Ok(LastLooks {
            room,
            fired: false,
            most: 0,
            looks,
        })
    }

    /// Forgets that the rule fired.
    pub(crate) fn forget(&mut self)
        ensures { self.new ≡ unfired self.old.room }
    {
        self.fired = false;
        self.most = 0;
    }

    /// Keeps that the rule fired, and looked at this.
    pub(crate) fn keep(&mut self, looked: &[Look])
        requires { length looked.now ≤ self.old.room }
        ensures { self.new ≡ record { room = self.old.room; looked = Some looked.now } }
    {
        fill(&mut self.looks, looked);
        self.fired = true;
        self.most = self.most.max(looked.len());
    }

    /// Returns what the rule looked at when it last fired, and nothing if it has not fired.
    pub(crate) fn looks(&self) -> &[Look]
        ensures { result.now ≡ unwrap_or self.now.looked [] }
    {
        if self.fired {
            self.looks.as_slice()
        } else {
            &[]
        }
    }

    /// Returns the maximum number of looks of its firings in the timestep. It says what is worth a search, and is a hint alone.
    pub(crate) fn most(&self) -> usize {
        self.most
    }

    /// Returns whether the rule has not fired, or one of the cells holds another value than it saw.
    pub(crate) fn is_changed(&self, series: &Series) -> bool
        ensures { result ≡ is_changed (held series.now) self.now.looked }
    {
        if self.fired {
            any_changed(self.looks.as_slice(), series)
        } else {
            true
        }
    }
}

// Puts looks in the place of those that there are. There is room for them.
fn fill(looks: &mut Vec<Look>, looked: &[Look])
    requires { length looked.now ≤ looks.old.cap }
    ensures items { looks.new.items ≡ looked.now }
    ensures room { looks.old.cap ≤ looks.new.cap }
{
    looks.clear();
    if looked.len() < MANY_LOOKS {
        add_each(looks, looked);
    } else {
        add_all(looks, looked);
    }
}

// Adds looks one by one. There is room for them.
#[inline(always)]
fn add_each(looks: &mut Vec<Look>, looked: &[Look])
    requires { length looks.old.items + length looked.now ≤ looks.old.cap }
    ensures items { looks.new.items ≡ looks.old.items ++ looked.now }
    ensures room { looks.old.cap ≤ looks.new.cap }
{
    for look in looked {
        looks.push_reserved(*look);
    }
}

// The same, all at once.
#[inline(never)]
fn add_all(looks: &mut Vec<Look>, looked: &[Look])
    requires { length looks.old.items + length looked.now ≤ looks.old.cap }
    ensures items { looks.new.items ≡ looks.old.items ++ looked.now }
    ensures room { looks.old.cap ≤ looks.new.cap }
{
    match looks.extend_from_slice(looked) {
        Ok(()) => {}
        Err(_) => unreachable!(),
    }
}

// Whether one of the cells holds another value than was seen there.
fn any_changed(looks: &[Look], series: &Series) -> bool
    ensures { is_changed (held series.now) (Some looks.now) ≡ result }
{
    for look in looks {
        if is_changed_at(*look, series) {
            return true;
        }
    }
    false
}

// Whether the cell holds another value than was seen there.
fn is_changed_at(look: Look, series: &Series) -> bool
    ensures { result ≡ not (is_same_value look.seen (value_in (held series.now) look.cell)) }
{
    match (look.seen, series.get(look.cell)) {
        (None, None) => false,
        (Some(seen), Some(content)) => seen != content.value,
        _ => true,
    }
}
