//! Proves what is noted, in plain words. Each law is the `ensures` of a function that does nothing.
ghost use Rattle.std.specs.List.{flat_map};
ghost use Rattle.std.specs.Option.{option_or};
ghost use Rattle.std.specs.Prelude.{◌≡◌, ◌↔◌, ◌⊎◌, ℕ, IsTrue, IsFalse, List, [], ◌∷◌, ◌++◌, Contains, Option, length, pos};
ghost use Rattle.rw_base.specs.declared.number.Cell.{Cell};
ghost use Rattle.rw_model.specs.Draft.{Draft};
ghost use Rattle.rw_run.specs.Log.{Asked, Cells, Event, asked_in, held_after, last_put, written_by};
ghost use Rattle.rw_run.specs.Step.{cell_count, cells_reached, reached_by};
ghost use Rattle.rw_run.specs.Timestep.{AreLooked};
ghost use Rattle.rw_run.specs.declared.held.Held.{Held};
ghost use Rattle.rw_run.specs.declared.trace.TraceEvent.{TraceEvent};
ghost use Rattle.rw_record.specs.Noted.{AreOnce, is_noted, noted_after};
ghost use Rattle.rw_record.specs.Notes.{CanTakeBack, Notes};
ghost use Rattle.rw_record.specs.Record.{AreRisingCells, IsRecordOf, StepRecord};
ghost use Rattle.rw_record.specs.Worked.{each_holds, held_at, none_holds, unknown_at};
ghost use Rattle.rw_run.specs.Dispatch.{cell_at};
ghost use Rattle.rw_run.specs.Worked.{linked_basin, one_end_run};

/// What is noted after some cells is what was noted before, and each of them that was new, with what it holds. Each cell is there
/// once, and the result is the same whether cells are noted together or one after the other.
pub fn noting()
    ensures members { (cells : Cells) (noted : List Held) (more : List Cell) (one : Held)
        → Contains (noted_after cells noted more) one ↔ (Contains noted one
        ⊎ (IsFalse (is_noted noted one.cell) × Contains more one.cell
        × (one.content ≡ cells one.cell))) }
    ensures cells { (cells : Cells) (noted : List Held) (more : List Cell) (cell : Cell)
        → IsTrue (is_noted (noted_after cells noted more) cell)
        ↔ (IsTrue (is_noted noted cell) ⊎ Contains more cell) }
    ensures once { (cells : Cells) (noted : List Held) (more : List Cell)
        → AreOnce noted → AreOnce (noted_after cells noted more) }
    ensures joined { (cells : Cells) (noted : List Held) (first next : List Cell)
        → noted_after cells (noted_after cells noted first) next
        ≡ noted_after cells noted (first ++ next) }
{}

/// What can be taken back still can be where any cells are noted, and where puts are made all of whose cells are noted.
pub fn revocable()
    ensures fresh { (before : Cells) → CanTakeBack before before [] }
    ensures noted { (before now : Cells) (noted : List Held) (more : List Cell)
        → CanTakeBack before now noted → CanTakeBack before now (noted_after now noted more) }
    ensures put { (basin : Draft) (before now : Cells) (noted : List Held) (puts : List Asked)
        → CanTakeBack before now noted
        → ((cell : Cell) → Contains (cells_reached basin puts) cell → IsTrue (is_noted noted cell))
        → CanTakeBack before (λ cell. option_or (last_put basin puts cell) (now cell)) noted }
    ensures whole { (basin : Draft) (before now : Cells) (events : List Event) (noted : List Held)
        → Notes basin before now events noted → CanTakeBack before now noted }
{}

/// Where what an event looked at and reached is noted before its puts are made, and it writes what it asked for alone, the notes
/// of a timestep are those of its events with this one.
pub fn notes()
    ensures opened { (basin : Draft) (before : Cells) → Notes basin before before [] [] }
    ensures event { (basin : Draft) (before now : Cells) (events : List Event) (noted : List Held)
        (event : Event) → Notes basin before now events noted
        → ((put : Asked) → Contains (written_by event) put → Contains (asked_in event) put)
        → Notes basin before (held_after basin event now) (events ++ event ∷ [])
        (noted_after now noted (reached_by basin event)) }
{}

/// A list in which each cell stands once is as long as there are cells.
pub fn how_many()
    ensures cells { (noted : List Held) (cells : List Cell) → AreOnce noted
        → ((cell : Cell) → Contains cells cell ↔ IsTrue (is_noted noted cell))
        → length noted ≡ cell_count cells }
    ensures looked { (basin : Draft) (before : Cells) (events : List Event) (noted : List Held)
        → AreOnce noted → AreLooked basin before events noted
        → length noted ≡ cell_count (flat_map (reached_by basin) events) }
{}

/// The record of a timestep has what was noted of it.
pub fn recorded()
    ensures { (basin : Draft) (before : Cells) (events : List Event) (step : ℕ)
        (noted : List Held) (lines : List TraceEvent) (kept : StepRecord)
        → AreLooked basin before events noted → IsRecordOf step noted lines kept
        → AreLooked basin before events kept.looked }
{}

/// Small lists of cells, worked out by hand. A cell that is named again is not noted again, and keeps what it held first. A put
/// to one end of a link reaches the other. Cells rise by slot, and of one slot by timestep.
pub fn worked_notes()
    ensures again { noted_after (each_holds (pos 5)) []
        (cell_at 1 1 ∷ cell_at 2 1 ∷ cell_at 1 1 ∷ [])
        ≡ held_at 1 1 (pos 5) ∷ held_at 2 1 (pos 5) ∷ [] }
    ensures first { noted_after (each_holds (pos 7)) (held_at 1 1 (pos 5) ∷ [])
        (cell_at 1 1 ∷ cell_at 1 2 ∷ [])
        ≡ held_at 1 1 (pos 5) ∷ held_at 1 2 (pos 7) ∷ [] }
    ensures both { noted_after none_holds [] (flat_map (reached_by linked_basin) one_end_run)
        ≡ unknown_at 1 1 ∷ unknown_at 2 1 ∷ [] }
    ensures rising { AreRisingCells (held_at 1 2 (pos 5) ∷ held_at 2 1 (pos 5) ∷ []) }
    ensures falling { ¬ AreRisingCells (held_at 2 1 (pos 5) ∷ held_at 1 2 (pos 5) ∷ []) }
{}
