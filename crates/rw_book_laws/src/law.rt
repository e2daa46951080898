//! Proves that the water balances of every run close. Each law is the `ensures` of a function that does nothing.
ghost use Rattle.std.specs.Prelude.{◌≤◌, ℕ, ℤ, List};
ghost use Rattle.rw_base.specs.declared.number.Cell.{Cell};
ghost use Rattle.rw_model.specs.Basin.{IsBasin};
ghost use Rattle.rw_model.specs.Draft.{Draft};
ghost use Rattle.rw_series.specs.Series.{held};
ghost use Rattle.rw_run.specs.Log.{Cells, Log, cells_of};
ghost use Rattle.rw_run.specs.Next.{Policy};
ghost use Rattle.rw_run.specs.Policy.{IsPolicyOf};
ghost use Rattle.rw_run.specs.RunOf.{IsRunOf, last_closed};
ghost use Rattle.rw_run.specs.Runs.{IsRun};
ghost use Rattle.rw_run.specs.declared.run.Run.{Run};
ghost use Rattle.rw_laws.specs.Balances.{AllBalanced};
ghost use Rattle.rw_book_laws.specs.Closing.{BooksClose};

use rw_laws::law::{balance, closed_timesteps_stay, every_run};
use rw_run::law::choices;

/// The books of every run close, also of one that ended in a fault: of each object of which all is known in the timesteps that
/// were closed, what it held before the run, and what flowed in less what flowed out, is what it holds.
pub fn every_book()
    ensures { (basin : Draft) (policy : Policy) (inputs : List (Cell × ℤ)) (log : Log) (run : Run)
        → IsBasin basin → IsPolicyOf basin policy → IsRun basin policy inputs log
        → IsRunOf basin log run → BooksClose basin (held run.series) run.closed }
{
    every_run();
}

/// The same of a run by its events: of what its cells hold at the end, over the timesteps that were closed.
pub fn every_book_of_events()
    ensures { (basin : Draft) (policy : Policy) (inputs : List (Cell × ℤ)) (log : Log)
        → IsBasin basin → IsPolicyOf basin policy → IsRun basin policy inputs log
        → BooksClose basin (cells_of basin log) (last_closed log) }
{
    balance();
    closed_timesteps_stay();
    choices();
}

/// Books over the first timesteps close wherever every object is balanced at each of them.
#[tactic(auto, using(crate::proofs::Closing::books_close))]
pub fn balanced_books_close()
    ensures { (basin : Draft) (cells : Cells) (closed : ℕ) → IsBasin basin
        → ((step : ℕ) → 1 ≤ step → step ≤ closed → AllBalanced basin step cells)
        → BooksClose basin cells closed }
{}
