//! Collects what a rule asks for in the run's timesteps.
ghost use Rattle.std.specs.Prelude.{◌≡◌, ◌≤◌, ◌<◌, ◌+◌, ◌++◌, ◌∷◌, [], length, nat_le};
ghost use Rattle.std.specs.List.{filter};
ghost use Rattle.rw_calendar.specs.declared.limits.TheConstants.{STEPS_MAX};
ghost use Rattle.rw_run.specs.Log.{Asked};
ghost use Rattle.rw_run.specs.Next.{asked_by_rule, asked_of_rule};

use rw_base::{Cell, RuleNo, StepNo};
use rw_firing::RulePut;
use rw_model::{Basin, Content, Writer};
use rw_run::Write;

/// Returns what a put of a rule at a timestep asks for: its slot, `put.ahead` timesteps later, with its value in the base unit of the slot.
pub fn asked_by(rule: RuleNo, step: StepNo, put: RulePut) -> Write
    requires { step.0 ≤ STEPS_MAX }
    ensures { result ≡ asked_by_rule rule.0 step.0 put }
{
    Write {
        cell: Cell {
            slot: put.slot,
            step: StepNo(step.0 + u16::from(put.ahead)),
        },
        content: Content {
            value: put.value,
            number: rule.0,
            writer: Writer::Rule(rule),
        },
    }
}

// Adds what is asked for, if it is in a timestep up to the last one.
fn add(asked: &mut Vec<Write>, last: u16, write: Write)
    requires room { length asked.old.items < asked.old.cap }
    ensures room { asked.new.cap ≡ asked.old.cap }
    ensures more { length asked.new.items ≤ length asked.old.items + 1 }
    ensures asked { asked.new.items ≡ asked.old.items
        ++ filter (λ (put : Asked). nat_le put.cell.step.0 last) (write ∷ []) }
{
    if write.cell.step.0 <= last {
        asked.push_reserved(write);
    }
}

/// Adds what a rule asks for in the run's timesteps.
pub(crate) fn ask_all(
    asked: &mut Vec<Write>,
    basin: &Basin,
    rule: RuleNo,
    step: StepNo,
    puts: &[RulePut],
)
    requires step { step.0 ≤ basin.now.control.stamps.count }
    requires room { length puts.now ≤ asked.old.cap }
    ensures room { asked.new.cap ≡ asked.old.cap }
    ensures few { length asked.new.items ≤ length puts.now }
    ensures asked { asked.new.items ≡ asked_of_rule basin.now rule.0 step.0 puts.now }
{
    let last = basin.control().stamps.count();
    asked.clear();
    for put in puts {
        add(asked, last, asked_by(rule, step, *put));
    }
}
