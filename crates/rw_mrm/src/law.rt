//! Proves what the summary of a tally says of its runs. Each law is the `ensures` of a function that does nothing.
ghost use Rattle.std.specs.Prelude.{◌≡◌, ℕ, pos, List, [], ◌∷◌, ◌++◌, Some, None};
ghost use Rattle.rw_model.specs.Draft.{Draft};
ghost use Rattle.rw_mrm.specs.Statistics.{greatest_value, least_value, median};
ghost use Rattle.rw_mrm.specs.Summary.{Ended, IsTallyOf, summary_by, summary_of};
ghost use Rattle.rw_mrm.specs.Tally.{IsTallyFor, Tally, no_runs, with_run};

/// The summary of a tally of runs is that of the runs: for each cell the number, the minimum, the median and the maximum of what
/// it holds in those that settled.
#[tactic(auto, using(crate::proofs::Sums::summary_is))]
pub fn summary_of_runs()
    ensures { (basin : Draft) (runs : List Ended) (tally : Tally) → IsTallyFor basin tally
        → IsTallyOf basin runs tally → summary_by basin tally ≡ summary_of basin runs }
{}

/// Worked minimum, median and maximum of three values and of two.
pub fn worked_statistics()
    ensures least { least_value (pos 10 ∷ pos 30 ∷ pos 20 ∷ []) ≡ Some (pos 10) }
    ensures median { median (pos 10 ∷ pos 30 ∷ pos 20 ∷ []) ≡ Some (pos 20) }
    ensures greatest { greatest_value (pos 10 ∷ pos 30 ∷ pos 20 ∷ []) ≡ Some (pos 30) }
    ensures two { median (pos 30 ∷ pos 10 ∷ []) ≡ Some (pos 10) }
    ensures none { median [] ≡ None }
{}

/// A tally to which no run was added is one of no runs, and a tally of runs is one of a run more once that is added.
#[tactic(auto, using(crate::proofs::Sums::tally_begins, crate::proofs::Sums::tally_goes_on))]
pub fn tallies()
    ensures begins { (basin : Draft) (room : ℕ) → IsTallyOf basin [] (no_runs basin room) }
    ensures goes_on { (basin : Draft) (runs : List Ended) (tally : Tally) (run : Ended)
        → IsTallyOf basin runs tally
        → IsTallyOf basin (runs ++ run ∷ []) (with_run basin run.settled run.cells tally) }
{}
