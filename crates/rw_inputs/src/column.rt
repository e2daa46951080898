//! Keeps the values of one slot by timestep, and takes memory only once there is a value.
ghost use Rattle.std.specs.Prelude.{◌≡◌, ◌⊎◌, ℕ, ◌+◌, ◌≤◌, ◌<◌, [], true, false, Ok, Some, None, IfOk, OnOk, OnErr, MatchBool, length};
ghost use Rattle.rw_inputs.specs.Column.{IsColumn, IsFree, IsSet, IsSpanIn, IsTakenWithin, TakesValue, value_in_column};

use crate::edit::Edit;
use crate::kept::{KeptQty, value_in};
use crate::row_value::RowValue;
use rw_base::{NoMemory, Qty};
use std::alloc::Global;
use std::marker::Model;

/// What is kept of a slot, seen as a value or none for each timestep. These count from 1, so the first place stays empty. As long
/// as nothing is kept there are no places, and no memory is taken.
#[derive(Drop)]
pub(crate) struct Column {
    values: Vec<KeptQty>,
}

impl Model for Column {
    ghost use Rattle.rw_inputs.specs.Column as specs;

    ghost Value = { specs.Column };

    ghost view = { λ c. c.values.items };
}

// Whether nothing is kept from one timestep to another.
fn is_free(values: &[KeptQty], first: u16, last: u16) -> bool
    requires { 1 ≤ first }
    ensures { MatchBool result (IsFree values.now first last)
        (IsTakenWithin values.now first last) }
{
    for before in first - 1..last {
        if value_in(values, before + 1).is_some() {
            return false;
        }
    }
    true
}

// Makes a place for each timestep, in which nothing is kept.
fn make_places(values: &mut Vec<KeptQty>, steps: u16) -> Result<(), NoMemory>
    requires { values.old.items ≡ [] }
    ensures places { OnOk result (length values.new.items ≡ steps + 1) }
    ensures none { OnOk result ((step : ℕ) → value_in_column values.new.items step ≡ None) }
    ensures unchanged { OnErr result (values.new.items ≡ []) }
{
    values.resize(usize::from(steps) + 1, KeptQty::of(None))?;
    Ok(())
}

// Makes a place for each timestep, if there are none yet.
fn widen(values: &mut Vec<KeptQty>, steps: u16) -> Result<(), NoMemory>
    requires { IsColumn steps values.old.items }
    ensures places { OnOk result (length values.new.items ≡ steps + 1) }
    ensures same { OnOk result ((step : ℕ) → value_in_column values.new.items step
        ≡ value_in_column values.old.items step) }
    ensures unchanged { OnErr result (values.new.items ≡ values.old.items) }
{
    if values.is_empty() {
        make_places(values, steps)
    } else {
        Ok(())
    }
}

// Keeps a value, or nothing, from one timestep to another.
fn keep(values: &mut [KeptQty], first: u16, last: u16, kept: &KeptQty)
    requires first { 1 ≤ first }
    requires order { first ≤ last }
    requires last { last < length values.old }
    ensures { IsSet kept.now first last values.old values.new }
{
    for before in first - 1..last {
        values[usize::from(before) + 1] = kept.copy();
    }
}

// Keeps a value from one timestep to another, of so many in all.
fn give(
    values: &mut Vec<KeptQty>,
    steps: u16,
    first: u16,
    last: u16,
    value: Qty,
) -> Result<(), NoMemory>
    requires column { IsColumn steps values.old.items }
    requires span { IsSpanIn steps first last }
    ensures column { IsColumn steps values.new.items }
    ensures given { OnOk result (IsSet (Some value) first last
        values.old.items values.new.items) }
    ensures unchanged { OnErr result (values.new.items ≡ values.old.items) }
{
    widen(values, steps)?;
    let kept = KeptQty::of(Some(value));
    keep(values.as_mut_slice(), first, last, &kept);
    Ok(())
}

// Keeps nothing from one timestep to another, of so many in all.
fn clear(values: &mut Vec<KeptQty>, steps: u16, first: u16, last: u16)
    requires column { IsColumn steps values.old.items }
    requires span { IsSpanIn steps first last }
    ensures column { IsColumn steps values.new.items }
    ensures cleared { IsSet None first last values.old.items values.new.items }
{
    if values.is_empty() {
        return;
    }
    let kept = KeptQty::of(None);
    keep(values.as_mut_slice(), first, last, &kept);
}

impl Column {
    /// Returns the column with nothing at any timestep.
    pub(crate) fn none(alloc: Global) -> Column
        ensures { result ≡ [] }
    {
        Column {
            values: Vec::new(alloc),
        }
    }

    /// Returns what is kept, in the place of its timestep.
    pub(crate) fn values(&self) -> &[KeptQty]
        ensures { result.now ≡ self.now }
    {
        self.values.as_slice()
    }

    /// Keeps what a row gives, if nothing is kept yet of its timesteps, of `steps` in all. Returns `false` exactly where
    /// something is.
    pub(crate) fn take(&mut self, steps: u16, row: &RowValue) -> Result<bool, NoMemory>
        requires column { IsColumn steps self.old }
        requires span { IsSpanIn steps row.now.first row.now.last }
        ensures column { IsColumn steps self.new }
        ensures taken { result ≡ Ok true
            → TakesValue row.now.value row.now.first row.now.last self.old self.new }
        ensures twice { result ≡ Ok false → IsTakenWithin self.old row.now.first row.now.last }
        ensures unchanged { (result ≡ Ok true) ⊎ (self.new ≡ self.old) }
    {
        if !is_free(self.values.as_slice(), row.first, row.last) {
            return Ok(false);
        }
        give(&mut self.values, steps, row.first, row.last, row.value)?;
        Ok(true)
    }

    /// Sets what an edit says at its timesteps, of `steps` in all.
    pub(crate) fn set(&mut self, steps: u16, edit: &Edit) -> Result<(), NoMemory>
        requires column { IsColumn steps self.old }
        requires span { IsSpanIn steps edit.now.first edit.now.last }
        ensures column { IsColumn steps self.new }
        ensures set { OnOk result (IsSet edit.now.value edit.now.first edit.now.last
            self.old self.new) }
        ensures unchanged { OnErr result (self.new ≡ self.old) }
    {
        match edit.value {
            Some(value) => give(&mut self.values, steps, edit.first, edit.last, value),
            None => {
                clear(&mut self.values, steps, edit.first, edit.last);
                Ok(())
            }
        }
    }

    /// Returns a copy of the column.
    pub(crate) fn copy(&self, alloc: Global) -> Result<Column, NoMemory>
        ensures { IfOk result (λ copy. copy ≡ self.now) }
    {
        Ok(Column {
            values: self.values.as_slice().to_vec(alloc)?,
        })
    }
}
