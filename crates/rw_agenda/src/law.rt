//! Proves what the definitions of this crate mean, on agendas that were worked out by hand and in general.
ghost use Rattle.std.specs.Option.{option_or};
ghost use Rattle.std.specs.Prelude.{◌≡◌, ℕ, List, [], ◌∷◌, None, Some, false, pos};
ghost use Rattle.rw_model.specs.Draft.{Draft};
ghost use Rattle.rw_model.specs.declared.control.AgendaOrder.TheVariants.{HighFirst, LowFirst};
ghost use Rattle.rw_firing.specs.declared.look.Look.{Look};
ghost use Rattle.rw_run.specs.Log.{Asked, Cells, last_put};
ghost use Rattle.rw_run.specs.Next.{is_changed};
ghost use Rattle.rw_agenda.specs.Agenda.{Agenda, IsIndexed, IsListed, KeepsOtherMarks, MarksThose, after_firing, first_due_in};
ghost use Rattle.rw_agenda.specs.declared.limits.TheConstants.{RULES_MAX};
ghost use Rattle.rw_agenda.specs.Worked.{after_two, all_hold, both_saw_five, none_fired, none_known};

use rw_run::law::index;

/// The one of two rules that is due, taken from rule 1 on.
pub fn high_first()
    ensures fresh { first_due_in (none_fired HighFirst) none_known ≡ Some 1 }
    ensures second { first_due_in (after_two HighFirst) none_known ≡ Some 1 }
    ensures settled { first_due_in (both_saw_five HighFirst) (all_hold (pos 5)) ≡ None }
    ensures changed { first_due_in (both_saw_five HighFirst) (all_hold (pos 6)) ≡ Some 1 }
    ensures unknown { first_due_in (both_saw_five HighFirst) none_known ≡ Some 1 }
{}

/// The one of two rules that is due, taken from the last on.
pub fn low_first()
    ensures fresh { first_due_in (none_fired LowFirst) none_known ≡ Some 2 }
    ensures second { first_due_in (after_two LowFirst) none_known ≡ Some 1 }
    ensures settled { first_due_in (both_saw_five LowFirst) (all_hold (pos 5)) ≡ None }
    ensures changed { first_due_in (both_saw_five LowFirst) (all_hold (pos 6)) ≡ Some 2 }
{}

/// What `next` requires stays true. Where a rule fired and its cells hold what it saw, while the others keep their marks, and
/// where a cell is written and those are marked that looked at one which shares its value with it, the cells of each rule that is
/// not marked still hold what it saw.
pub fn index_stays()
    ensures fired { (old new : Agenda) (cells : Cells) (rule : ℕ) (looks : List Look)
        → IsIndexed old cells → IsListed old rule → is_changed cells (Some looks) ≡ false
        → new.rules ≡ after_firing old rule looks → KeepsOtherMarks rule old new
        → IsIndexed new cells }
    ensures changed { (basin : Draft) (old new : Agenda) (cells : Cells) (put : Asked)
        → IsIndexed old cells → new.rules ≡ old.rules → MarksThose basin put.cell old new
        → IsIndexed new (λ cell. option_or (last_put basin (put ∷ []) cell) (cells cell)) }
{
    index();
}

/// How many rules an agenda has at most.
pub fn limits_of_agendas()
    ensures rules { RULES_MAX ≡ 200 }
{}
