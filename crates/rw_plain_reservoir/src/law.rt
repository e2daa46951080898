//! Proves what the run of any basin is where the basin is one plain reservoir. The law is the `ensures` of a function that does
//! nothing.
ghost use Rattle.std.specs.Prelude.{◌≡◌, ◌↔◌, ℕ, ℤ, pos, negsuc, List, [], ◌∷◌, Option, None, Some, codes};
ghost use Rattle.rw_model.specs.Basin.{IsBasin};
ghost use Rattle.rw_model.specs.Draft.{Draft};
ghost use Rattle.rw_inputs.specs.Inputs.{Inputs};
ghost use Rattle.rw_run.specs.declared.run.RunEnd.TheVariants.{Settled};
ghost use Rattle.rw_run.specs.Log.{Log, cells_of};
ghost use Rattle.rw_run.specs.Next.{no_rules};
ghost use Rattle.rw_run.specs.RunOf.{end_of, last_closed};
ghost use Rattle.rw_run.specs.Runs.{IsRun};
ghost use Rattle.rw_report.specs.Section.{section_of, values_in};
ghost use Rattle.rw_plain_reservoir.specs.FirstForm.{FirstModel, IsFirstForm, IsFirstFlows};
ghost use Rattle.rw_inputs.specs.Placings.{placings};
ghost use Rattle.rw_plain_reservoir.specs.Reservoir.{IsReservoirRun, storage_at};
ghost use Rattle.rw_plain_reservoir.specs.Table.{IsFirstText, columns_line, heading_line};

use rw_run::law::one_run;

/// One plain reservoir, whose inflow and outflow are given, has a run.
pub fn first_run()
    ensures { (basin : Draft) (model : FirstModel) (inputs : Inputs) (inflows outflows : List ℤ)
        → IsBasin basin → IsFirstForm basin model
        → IsFirstFlows inputs model.run.count inflows outflows
        → (log : Log) × IsRun basin no_rules (placings basin inputs) log }
{}

/// The section of the run of one plain reservoir, whose inflow and outflow are given, is the text of its run. It says that
/// the run settled exactly where it did.
pub fn first_text()
    ensures { (basin : Draft) (model : FirstModel) (inputs : Inputs)
        (inflows outflows : List ℤ) (log : Log)
        → IsBasin basin → IsFirstForm basin model
        → IsFirstFlows inputs model.run.count inflows outflows
        → IsRun basin no_rules (placings basin inputs) log
        → (fault : Option ℤ)
        × IsFirstText model inflows outflows fault
        (section_of basin 0 (end_of log) (last_closed log) (values_in (cells_of basin log)))
        × ((fault ≡ None) ↔ (end_of log ≡ Settled)) }
{
    one_run();
}

/// A basin is in the first form in one way.
#[tactic(auto, using(crate::proofs::OneModel::one_model))]
pub fn one_model()
    ensures { (basin : Draft) (model other : FirstModel) → IsFirstForm basin model
        → IsFirstForm basin other → model ≡ other }
{}

/// Such a run has one end and one text.
#[tactic(auto, using(crate::proofs::OneText::one_text))]
pub fn one_text()
    ensures { (model : FirstModel) (inflows outflows : List ℤ) (end other : Option ℤ)
        (text more : List ℕ)
        → IsFirstText model inflows outflows end text
        → IsFirstText model inflows outflows other more → (end ≡ other) × (text ≡ more) }
{}

/// Worked values: 1000 and three days of inflow 100, with outflows 50, 150 and 100; a reservoir of which 1001 are taken
/// at once; and the texts of their ends and of the columns.
#[tactic(auto, using(crate::proofs::Worked::emptied, crate::proofs::Worked::faulted))]
pub fn worked()
    ensures first { storage_at (pos 1000) (pos 100 ∷ pos 100 ∷ pos 100 ∷ [])
        (pos 50 ∷ pos 150 ∷ pos 100 ∷ []) 1 ≡ pos 1050 }
    ensures second { storage_at (pos 1000) (pos 100 ∷ pos 100 ∷ pos 100 ∷ [])
        (pos 50 ∷ pos 150 ∷ pos 100 ∷ []) 2 ≡ pos 1000 }
    ensures empty { storage_at (pos 1000) (pos 0 ∷ []) (pos 1001 ∷ []) 1 ≡ negsuc 0 }
    ensures run { IsReservoirRun 1 (pos 1000) (pos 0 ∷ []) (pos 1001 ∷ []) 0 (Some (negsuc 0)) }
    ensures settled { heading_line (codes "Dam") 3 None ≡ codes "# batch 0 settled\n" }
    ensures faulted { heading_line (codes "Dam") 0 (Some (negsuc 0))
        ≡ codes "# batch 0 fault out of range object Dam slot Dam.Storage step 1 value -1\n" }
    ensures names { columns_line (codes "Dam")
        ≡ codes "step,stamp,Dam.Inflow,Dam.Outflow,Dam.Storage\n" }
{}
