//! Tests whole runs of basins: the objects, the inputs, and the text that is written.
use crate::rows::basins::BASINS;
use crate::rows::objects::OBJECTS;
use crate::rows::pools::POOLS;
use crate::rows::statuses::Text::Whole;
use crate::rows::statuses::{Failing, Simulation, simulates};
use rw_base::NoMemory;
use std::alloc::Global;
use std::process::Abort;
use std::test::Fail;

/// What an example shows, a basin that runs for some days, its inputs, and how its run ends: with this status, and this
/// text.
#[derive(Clone, Copy)]
pub(crate) struct Example<'a> {
    pub(crate) shows: &'a str,
    pub(crate) days: &'a str,
    pub(crate) objects: &'a str,
    pub(crate) inputs: &'a str,
    pub(crate) status: u8,
    pub(crate) text: &'a str,
}

/// Fails unless no row of a table is wrong; `first` is the place of the first wrong one, counted from 0.
pub(crate) fn none_is_wrong(rt: &impl Abort, first: Option<usize>) {
    assert_eq!(rt; first, None);
}

fn joined(alloc: Global, parts: &[&str]) -> Result<String, NoMemory> {
    let mut text = String::new(alloc);
    for part in parts {
        text.push_str(*part)?;
    }
    Ok(text)
}

const BEGIN: &str = "format = 1\n[run]\nstart = \"2020-01-01T00:00\"\nstep = \"24h\"\nsteps = ";

// Whether the run of the example, of these texts, ends as it says.
fn is_run<'a>(
    alloc: Global,
    model: &'a str,
    inputs: &'a str,
    example: Example<'a>,
) -> Result<bool, NoMemory> {
    let want = Simulation {
        model: model.as_bytes(),
        inputs: inputs.as_bytes(),
        status: example.status,
        out: Whole(example.text.as_bytes()),
        err: Whole(b""),
    };
    simulates(alloc, Failing::Nothing, want)
}

fn is_right(alloc: Global, example: Example<'_>) -> Result<bool, NoMemory> {
    let model = joined(alloc, &[BEGIN, example.days, "\n", example.objects])?;
    let inputs = joined(alloc, &["slot,step,value\n", example.inputs])?;
    is_run(alloc, &model, &inputs, example)
}

fn check(rt: &impl Abort, alloc: Global, examples: &[Example<'_>]) -> Result<(), NoMemory> {
    for k in 0..examples.len() {
        let example = examples[k];
        assert!(rt; is_right(alloc, example)?, "{}", example.shows);
    }
    Ok(())
}

#[test]
fn runs_end_as_their_examples_say(rt: HostRuntime) -> Result<(), Fail> {
    check(&rt, rt.alloc(), OBJECTS)?;
    check(&rt, rt.alloc(), POOLS)?;
    check(&rt, rt.alloc(), BASINS)?;
    Ok(())
}
