//! Writes the model of the sample.
ghost use Rattle.std.specs.Prelude.{◌≡◌, ◌≤◌, ◌++◌, IfOk, OnOk, string_bytes};
ghost use Rattle.rw_report.specs.Section.{for_each};
ghost use Rattle.rw_sample.specs.Texts.{link_words, model_words, reach_words, reservoir_words, sample_model};

use rw_base::NoMemory;
use std::alloc::Global;
use std::fmt::Write;

fn push_reservoir(text: &mut String, number: u16) -> Result<(), NoMemory>
    ensures { OnOk result (string_bytes text.new
        ≡ string_bytes text.old ++ reservoir_words number) }
{
    write!(
        text,
        "\n[[object]]\nname = \"D{number}\"\nkind = \"reservoir\"\ninitial_storage = 100000\n"
    )?;
    Ok(())
}

fn push_reservoirs(text: &mut String) -> Result<(), NoMemory>
    ensures { OnOk result (string_bytes text.new
        ≡ string_bytes text.old ++ for_each reservoir_words 20) }
{
    for before in 0..20u16 {
        push_reservoir(text, before + 1)?;
    }
    Ok(())
}

fn push_reach(text: &mut String, number: u16) -> Result<(), NoMemory>
    ensures { OnOk result (string_bytes text.new ≡ string_bytes text.old ++ reach_words number) }
{
    write!(
        text,
        "\n[[object]]\nname = \"R{number}\"\nkind = \"reach\"\nlag = 1\nhistory = [100]\n"
    )?;
    Ok(())
}

fn push_reaches(text: &mut String) -> Result<(), NoMemory>
    ensures { OnOk result (string_bytes text.new
        ≡ string_bytes text.old ++ for_each reach_words 19) }
{
    for before in 0..19u16 {
        push_reach(text, before + 1)?;
    }
    Ok(())
}

fn push_link(text: &mut String, number: u16) -> Result<(), NoMemory>
    requires { number ≤ 19 }
    ensures { OnOk result (string_bytes text.new ≡ string_bytes text.old ++ link_words number) }
{
    let next = number + 1;
    write!(
        text,
        "\n[[link]]\nslots = [\"D{number}.Outflow\", \"R{number}.Inflow\"]\n\n[[link]]\nslots = [\"R{number}.Outflow\", \"D{next}.Inflow\"]\n"
    )?;
    Ok(())
}

fn push_links(text: &mut String) -> Result<(), NoMemory>
    ensures { OnOk result (string_bytes text.new
        ≡ string_bytes text.old ++ for_each link_words 19) }
{
    for before in 0..19u16 {
        push_link(text, before + 1)?;
    }
    Ok(())
}

fn model_words(alloc: Global) -> Result<Vec<u8>, NoMemory>
    ensures { IfOk result (λ text. text.items ≡ model_words) }
{
    let mut text = String::new(alloc);
    text.push_str(
        "format = 1\n\n[run]\nstart = \"2020-01-01T00:00\"\nstep = \"24h\"\nsteps = 365\n",
    )?;
    push_reservoirs(&mut text)?;
    push_reaches(&mut text)?;
    push_links(&mut text)?;
    Ok(text.into_bytes())
}

/// Returns the text of the model: 365 timesteps of a day from the beginning of 2020 on, reservoirs D1 to D20, which hold 100,000
/// m3 at first, and reaches R1 to R19 with a lag of a day, which lead from each reservoir to the next one. The one error is want
/// of memory.
#[tactic(auto, unfolding(crate::specs::Texts::sample_model))]
pub fn sample_model(alloc: Global) -> Result<Vec<u8>, NoMemory>
    ensures text { IfOk result (λ text. text.items ≡ sample_model) }
{
    model_words(alloc)
}
