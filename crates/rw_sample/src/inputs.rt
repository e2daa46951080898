//! Writes the inputs of the sample.
ghost use Rattle.std.specs.Prelude.{◌≡◌, ◌++◌, IfOk, OnOk, string_bytes, codes};
ghost use Rattle.std.specs.Fmt.{decimal};
ghost use Rattle.rw_sample.specs.Texts.{seeded_inflow, inflow_rows, next_number, sample_inputs};

use rw_base::NoMemory;
use std::alloc::Global;
use std::fmt::Write;

// The number behind another.
fn next_number(number: u64) -> u64
    ensures { result ≡ next_number number }
{
    let next = u128::from(number) * 6_364_136_223_846_793_005 + 1_442_695_040_888_963_407;
    (next % 18_446_744_073_709_551_616) as u64
}

// The inflow that a number gives, from 0 to 999.
fn inflow_of(number: u64) -> u64
    ensures { result ≡ seeded_inflow number }
{
    number / 8_589_934_592 % 1_000
}

fn push_inflow(text: &mut String, step: u16, inflow: u64) -> Result<(), NoMemory>
    ensures { OnOk result (string_bytes text.new ≡ string_bytes text.old
        ++ (codes "D1.Inflow,"
        ++ (decimal step ++ (codes "," ++ (decimal inflow ++ codes "\n"))))) }
{
    writeln!(text, "D1.Inflow,{step},{inflow}")?;
    Ok(())
}

// Appends the inflows of the first timesteps, so many of them.
#[tactic(auto, unfolding(crate::specs::Texts::inflow_rows))]
fn push_inflows(text: &mut String, seed: u64, count: u16) -> Result<(), NoMemory>
    ensures { OnOk result (string_bytes text.new
        ≡ string_bytes text.old ++ inflow_rows seed count) }
{
    let mut number = seed;
    for before in 0..count {
        number = next_number(number);
        push_inflow(text, before + 1, inflow_of(number))?;
    }
    Ok(())
}

/// Returns the text of the inputs that the seed gives: the inflow of D1 at each timestep, from 0 to 999 m3/step. The one error is
/// want of memory. `docs/FORMATS.md` has the sample under "Sample".
#[tactic(auto, unfolding(crate::specs::Texts::sample_inputs))]
pub fn sample_inputs(alloc: Global, seed: u64) -> Result<Vec<u8>, NoMemory>
    ensures text { IfOk result (λ text. text.items ≡ sample_inputs seed) }
{
    let mut text = String::new(alloc);
    text.push_str("slot,step,value\n")?;
    push_inflows(&mut text, seed, 365)?;
    Ok(text.into_bytes())
}
