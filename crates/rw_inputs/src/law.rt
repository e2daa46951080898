//! Proves what the definitions of this crate mean in plain words. Each law is the `ensures` of a function that does nothing.
ghost use Rattle.std.specs.Prelude.{◌≡◌, ◌≤◌, ◌+◌, ◌++◌, ◌∷◌, [], ℕ, pos, false, length, IsTrue, IsFalse, List, Option, None, Some, Ok, Err, codes};
ghost use Rattle.std.specs.List.{list_any};
ghost use Rattle.rw_model.specs.Draft.{Draft};
ghost use Rattle.rw_inputs.specs.declared.edit.Edit.{Edit};
ghost use Rattle.rw_inputs.specs.declared.fault.InputKind.TheVariants as InputKind;
ghost use Rattle.rw_inputs.specs.declared.wrong.Part.TheVariants as Part;
ghost use Rattle.rw_inputs.specs.EditRows.{admit, edit_header, edits_said, meets, more_batches, read_batch, read_batches, read_scenarios, scenario_header};
ghost use Rattle.rw_inputs.specs.Edits.{Batch, Values, after_batch, after_batches, after_edit, edit_of, edits_in, names};
ghost use Rattle.rw_inputs.specs.Inputs.{Inputs, value_at};
ghost use Rattle.rw_inputs.specs.Reading.{Reads, Refuses};
ghost use Rattle.rw_inputs.specs.Records.{Fields, AreRows, records_of};
ghost use Rattle.rw_inputs.specs.Refusal.{InputRefusal, refused_at};
ghost use Rattle.rw_inputs.specs.Row.{slot_of_text, wrong};
ghost use Rattle.rw_inputs.specs.declared.limits.TheConstants.{BATCHES_MAX, DIGITS_MAX, EDITS_MAX};

/// The records of a text are those that `csv` states for it, and it states no others.
pub fn text_records()
    ensures stated { (text : List ℕ) → AreRows text (records_of text) }
    ensures alone { (text : List ℕ) (records : List Fields)
        → AreRows text records → records ≡ records_of text }
{}

/// A text is read in one way, or refused for one reason: inputs that it reads as keep the same values, two refusals are
/// the same, and what is read isn't refused.
pub fn one_reading()
    ensures values { (basin : Draft) (text : List ℕ) (inputs other : Inputs)
        → Reads basin text inputs → Reads basin text other
        → (slot step : ℕ) → value_at inputs slot step ≡ value_at other slot step }
    ensures refusal { (basin : Draft) (text : List ℕ) (why other : InputRefusal)
        → Refuses basin text why → Refuses basin text other → why ≡ other }
    ensures either { (basin : Draft) (text : List ℕ) (inputs : Inputs) (why : InputRefusal)
        → Reads basin text inputs → ¬ Refuses basin text why }
{}

/// A cell that an edit names holds what it says, and any other what it held. Of two edits that name one cell the later one
/// counts, so a batch counts over those before it; an empty one changes nothing.
#[tactic(auto, using(crate::proofs::Edited::last_counts, crate::proofs::Edited::unnamed_stays, crate::proofs::Edited::one_after_another))]
pub fn edited_values()
    ensures named { (edit : Edit) (values : Values) (slot step : ℕ) → IsTrue (names edit slot step)
        → after_edit edit values slot step ≡ edit.value }
    ensures other { (edit : Edit) (values : Values) (slot step : ℕ) → IsFalse (names edit slot step)
        → after_edit edit values slot step ≡ values slot step }
    ensures last { (batch : Batch) (edit : Edit) (values : Values) (slot step : ℕ)
        → IsTrue (names edit slot step)
        → after_batch (batch ++ edit ∷ []) values slot step ≡ edit.value }
    ensures unnamed { (batch : Batch) (values : Values) (slot step : ℕ)
        → list_any (λ edit. names edit slot step) batch ≡ false
        → after_batch batch values slot step ≡ values slot step }
    ensures empty { (values : Values) → after_batch [] values ≡ values }
    ensures order { (earlier later : List Batch) (values : Values)
        → after_batches (earlier ++ later) values
        ≡ after_batches later (after_batches earlier values) }
{}

/// Edits meet exactly where both name a cell: each names the timesteps from its first to its last of one slot.
#[tactic(auto, using(crate::proofs::Meeting::named_by_both, crate::proofs::Meeting::both_name))]
pub fn edits_that_meet()
    ensures shared { (edit other : Edit) (slot step : ℕ) → IsTrue (names edit slot step)
        → IsTrue (names other slot step) → IsTrue (meets edit other) }
    ensures common { (edit other : Edit) → edit.first ≤ edit.last → other.first ≤ other.last
        → IsTrue (meets edit other) → (step : ℕ)
        × IsTrue (names edit edit.slot step) × IsTrue (names other edit.slot step) }
{}

/// Rows are read one after another: a refusal stands whatever rows come behind, and rows that are read leave their batches
/// to those behind them.
#[tactic(auto, using(crate::proofs::Edited::refused_still, crate::proofs::Edited::read_on))]
pub fn rows_in_order()
    ensures refused { (basin : Draft) (rows later : List Fields) (row : ℕ) (batches : List Batch)
        (why : InputRefusal) → more_batches basin row batches rows ≡ Err why
        → more_batches basin row batches (rows ++ later) ≡ Err why }
    ensures read { (basin : Draft) (rows later : List Fields) (row : ℕ) (batches all : List Batch)
        → more_batches basin row batches rows ≡ Ok all
        → more_batches basin row batches (rows ++ later)
        ≡ more_batches basin (row + length rows) all later }
{}

/// Each row that is read is one edit, at the end of the batches so far: none is lost, and none is added.
#[tactic(auto, using(crate::proofs::Flat::all_edits))]
pub fn every_row_counts()
    ensures { (basin : Draft) (rows : List Fields) (batches : List Batch)
        → more_batches basin 2 [] rows ≡ Ok batches
        → edits_in batches ≡ edits_said basin rows }
{}

/// Worked edits of a slot 3: 130 at timestep 2, then nothing at 1 to 3, then 7 at 3, in one batch and in three.
pub fn worked_edits()
    ensures value { (values : Values)
        → after_batch (edit_of 3 2 2 (Some (pos 130)) ∷ []) values 3 2 ≡ Some (pos 130) }
    ensures before { (values : Values)
        → after_batch (edit_of 3 2 2 (Some (pos 130)) ∷ []) values 3 1 ≡ values 3 1 }
    ensures beside { (values : Values)
        → after_batch (edit_of 3 2 2 (Some (pos 130)) ∷ []) values 4 2 ≡ values 4 2 }
    ensures removed { (values : Values)
        → after_batch (edit_of 3 1 3 None ∷ []) values 3 3 ≡ None }
    ensures earlier { (values : Values) → after_batches ((edit_of 3 2 2 (Some (pos 130)) ∷ [])
        ∷ (edit_of 3 1 3 None ∷ []) ∷ (edit_of 3 3 3 (Some (pos 7)) ∷ []) ∷ []) values 3 2
        ≡ None }
    ensures later { (values : Values) → after_batches ((edit_of 3 2 2 (Some (pos 130)) ∷ [])
        ∷ (edit_of 3 1 3 None ∷ []) ∷ (edit_of 3 3 3 (Some (pos 7)) ∷ []) ∷ []) values 3 3
        ≡ Some (pos 7) }
{}

/// Worked numbers of batches: the first row has 1, and each later one that of the row before it or the next; 64 is the last.
pub fn worked_batches()
    ensures first { read_batch 0 (codes "1") ≡ Ok 1 }
    ensures not_first { read_batch 0 (codes "2") ≡ wrong InputKind.BatchOrder Part.Batch }
    ensures none { read_batch 0 (codes "0") ≡ wrong InputKind.BatchOrder Part.Batch }
    ensures same { read_batch 2 (codes "2") ≡ Ok 2 }
    ensures next { read_batch 2 (codes "003") ≡ Ok 3 }
    ensures back { read_batch 2 (codes "1") ≡ wrong InputKind.BatchOrder Part.Batch }
    ensures skipped { read_batch 2 (codes "4") ≡ wrong InputKind.BatchOrder Part.Batch }
    ensures most { read_batch 63 (codes "64") ≡ Ok 64 }
    ensures too_many { read_batch 64 (codes "65") ≡ wrong InputKind.TooMany Part.Batch }
    ensures word { read_batch 0 (codes "+1") ≡ wrong InputKind.NotANumber Part.Batch }
{}

/// Worked rows behind others: an edit meets an earlier one of its batch at a timestep that both name, and of no other batch;
/// a removal counts as any other edit. The 10,000th row is the last.
pub fn worked_admissions()
    ensures twice { admit 3 ((edit_of 3 2 2 (Some (pos 3)) ∷ []) ∷ []) 1 (edit_of 3 1 3 None)
        ≡ wrong InputKind.Twice Part.Row }
    ensures apart { admit 3 ((edit_of 3 2 2 (Some (pos 3)) ∷ []) ∷ []) 1 (edit_of 3 3 4 None)
        ≡ Ok ((edit_of 3 2 2 (Some (pos 3)) ∷ edit_of 3 3 4 None ∷ []) ∷ []) }
    ensures another { admit 3 ((edit_of 3 2 2 (Some (pos 3)) ∷ []) ∷ []) 2 (edit_of 3 1 3 None)
        ≡ Ok ((edit_of 3 2 2 (Some (pos 3)) ∷ []) ∷ (edit_of 3 1 3 None ∷ []) ∷ []) }
    ensures most { admit 10_001 [] 1 (edit_of 3 1 3 None) ≡ Ok ((edit_of 3 1 3 None ∷ []) ∷ []) }
    ensures too_many { admit 10_002 [] 1 (edit_of 3 1 3 None)
        ≡ wrong InputKind.TooMany Part.Row }
{}

/// Worked texts, as records, for any basin: a header alone gives no batches. Else the first row is refused for its number of
/// fields, its batch, and a slot that the model hasn't, in this order.
pub fn worked_texts()
    ensures header { (basin : Draft) → read_batches basin (edit_header ∷ []) ≡ Ok [] }
    ensures nothing { (basin : Draft) → read_batches basin []
        ≡ Err (refused_at InputKind.Header 1 0) }
    ensures inputs { (basin : Draft) (rows : List Fields) → read_batches basin
        ((codes "slot" ∷ codes "step" ∷ codes "value" ∷ []) ∷ rows)
        ≡ Err (refused_at InputKind.Header 1 0) }
    ensures ragged { (basin : Draft) (slot step : List ℕ) (rows : List Fields)
        → read_batches basin (edit_header ∷ (codes "2" ∷ slot ∷ step ∷ []) ∷ rows)
        ≡ Err (refused_at InputKind.Ragged 2 0) }
    ensures order { (basin : Draft) (slot step value : List ℕ) (rows : List Fields)
        → read_batches basin (edit_header ∷ (codes "2" ∷ slot ∷ step ∷ value ∷ []) ∷ rows)
        ≡ Err (refused_at InputKind.BatchOrder 2 1) }
    ensures slot { (basin : Draft) (slot step value : List ℕ) (rows : List Fields)
        → slot_of_text basin slot ≡ None
        → read_batches basin (edit_header ∷ (codes "1" ∷ slot ∷ step ∷ value ∷ []) ∷ rows)
        ≡ Err (refused_at InputKind.UnknownSlot 2 2) }
{}

/// Worked texts of traces, as records, for any basin: a header alone gives none, neither of the two headers stands for the
/// other, and rows behind it are those of edits.
pub fn worked_scenarios()
    ensures header { (basin : Draft) → read_scenarios basin (scenario_header ∷ []) ≡ Ok [] }
    ensures edits { (basin : Draft) (rows : List Fields)
        → read_scenarios basin (edit_header ∷ rows) ≡ Err (refused_at InputKind.Header 1 0) }
    ensures scenarios { (basin : Draft) (rows : List Fields)
        → read_batches basin (scenario_header ∷ rows) ≡ Err (refused_at InputKind.Header 1 0) }
    ensures same { (basin : Draft) (rows : List Fields)
        → read_scenarios basin (scenario_header ∷ rows) ≡ read_batches basin (edit_header ∷ rows) }
{}

/// How many batches and rows edits that are read have at most, and how long a number is: definitions have them by these names.
pub fn limits_of_edits()
    ensures batches { BATCHES_MAX ≡ 64 }
    ensures edits { EDITS_MAX ≡ 10000 }
    ensures digits { DIGITS_MAX ≡ 18 }
{}
