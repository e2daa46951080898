//! Finds the cell that the words of a command name.
ghost use Rattle.std.specs.Prelude.{◌≡◌, option_and_then, option_map};
ghost use Rattle.std.specs.Option.{ForSome};
ghost use Rattle.rw_model.specs.Draft.{Draft, IsSlot};
ghost use Rattle.rw_words.specs.Command.{cell_seen};
ghost use Rattle.rw_commands.specs.Cell.{FindsCell, cell_by, cell_named, cell_asked, step_of_text};
ghost use Rattle.rw_commands.specs.Command.{command_said};
ghost use Rattle.rw_commands.specs.Reading.{IsCellRead};

use crate::Refusal;
use crate::command::Command;
use rw_base::{Cell, StepNo};
use rw_inputs::{read_number, slot_of_text};
use rw_model::Basin;
use rw_words::CellWords;

// The timestep of the run that the text names.
fn step_of_text(basin: &Basin, text: &[u8]) -> Option<u16>
    ensures { result ≡ step_of_text basin.now text.now }
{
    let step = read_number(text)?;
    if 1 <= step && step <= u64::from(basin.control().stamps.count()) {
        Some(step as u16)
    } else {
        None
    }
}

// The cell of a slot and a timestep, by their texts.
fn cell_named(basin: &Basin, slot: &[u8], step: &[u8]) -> Option<Cell>
    ensures cell { result ≡ cell_named basin.now slot.now step.now }
    ensures known { ForSome result (λ cell. IsSlot basin.now.objects cell.slot.0) }
{
    let slot = slot_of_text(basin, slot)?;
    let step = step_of_text(basin, step)?;
    Some(Cell {
        slot,
        step: StepNo(step),
    })
}

// The cell of these words, where there are any.
fn cell_by(basin: &Basin, words: Option<CellWords<'_>>) -> Option<Cell>
    ensures cell { result ≡ option_and_then (cell_by basin.now) (option_map cell_seen words.entry) }
    ensures known { ForSome result (λ cell. IsSlot basin.now.objects cell.slot.0) }
{
    match words {
        Some(words) => cell_named(basin, words.slot.as_bytes(), words.step.as_bytes()),
        None => None,
    }
}

// The cell that the command asks for, where it asks for one that is there.
fn cell_of(command: &Command<'_>, basin: &Basin) -> Option<Cell>
    ensures cell { result ≡ cell_asked (command_said command.now) basin.now }
    ensures known { ForSome result (λ cell. IsSlot basin.now.objects cell.slot.0) }
{
    if command.seeks_cell() {
        cell_by(basin, command.words.cell)
    } else {
        None
    }
}

/// Finds the cell, where the command asks for one. It has to be there.
pub(crate) fn find_cell(command: &Command<'_>, basin: &Basin) -> Result<Option<Cell>, Refusal>
    ensures { IsCellRead (command_said command.now) basin.now result }
{
    let cell = cell_of(command, basin);
    if command.seeks_cell() && cell.is_none() {
        Err(Refusal::NoCell)
    } else {
        Ok(cell)
    }
}
