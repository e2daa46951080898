//! Proves what becomes of worked puts to a data object with plain numbers X and Y over one day.
ghost use Rattle.std.specs.Prelude.{◌≡◌, [], ◌∷◌, None, Some, pos};
ghost use Rattle.rw_model.specs.declared.control.AgendaOrder.TheVariants.{HighFirst};
ghost use Rattle.rw_run.specs.Log.{input_content};
ghost use Rattle.rw_run.specs.Next.{asked_by_rule};
ghost use Rattle.rw_run.specs.Worked.{data_object_basin, rule_put};
ghost use Rattle.rw_writes.specs.Writes.{writes_of};
ghost use Rattle.rw_writes.specs.declared.limits.TheConstants.{PUTS_MAX};

/// Of two puts to a cell the later one is written. One past the last day is left out. One over a value that was given is
/// denied, and one of the value that is there is kept.
pub fn worked_puts()
    ensures both { writes_of (data_object_basin HighFirst 1) (λ cell. None) 1 1
        (rule_put 1 0 (pos 1) ∷ rule_put 2 0 (pos 3) ∷ [])
        ≡ asked_by_rule 1 1 (rule_put 1 0 (pos 1)) ∷ asked_by_rule 1 1 (rule_put 2 0 (pos 3)) ∷ [] }
    ensures twice { writes_of (data_object_basin HighFirst 1) (λ cell. None) 1 1
        (rule_put 1 0 (pos 1) ∷ rule_put 1 0 (pos 2) ∷ [])
        ≡ asked_by_rule 1 1 (rule_put 1 0 (pos 2)) ∷ [] }
    ensures ahead { writes_of (data_object_basin HighFirst 1) (λ cell. None) 1 1
        (rule_put 1 1 (pos 7) ∷ [])
        ≡ [] }
    ensures given { writes_of (data_object_basin HighFirst 1)
        (λ cell. Some (input_content (pos 5))) 1 1
        (rule_put 1 0 (pos 1) ∷ []) ≡ [] }
    ensures kept { writes_of (data_object_basin HighFirst 1)
        (λ cell. Some (input_content (pos 5))) 1 1
        (rule_put 1 0 (pos 5) ∷ []) ≡ [] }
{}

/// How many puts a firing has at most.
pub fn limits_of_firings()
    ensures puts { PUTS_MAX ≡ 2000 }
{}
