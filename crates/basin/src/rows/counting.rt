//! Tests how often the method of reservoirs is asked, where timesteps are taken over and where they are not.
use crate::rows::kinds::add_methods;
use crate::rows::statuses::Text::Any;
use crate::rows::statuses::{Failing, Simulation, runs_with};
use rw_base::NoMemory;
use rw_method::{Catalogue, Method, Solved, View};
use rw_model::Kind;
use rw_reservoir::ReservoirMethod;
use std::alloc::{AllocError, Global};
use std::cell::Cell;
use std::rc::Rc;
use std::test::Fail;

// Answers as the method of reservoirs does, and counts how often it is asked.
#[derive(Drop)]
struct CountingMethod {
    calls: Rc<Cell<u64>>,
}

impl Method for CountingMethod {
    ghost code = { λ _. 5 };

    fn code(&self) -> u8 {
        5
    }

    fn solve(&self, kind: &Kind, view: &View, solved: &mut Solved) {
        self.calls.set(self.calls.get().saturating_add(1));
        ReservoirMethod.solve(kind, view, solved);
    }
}

// The methods of all kinds, of which that of reservoirs counts.
fn counting_methods(
    alloc: Global,
    calls: &Rc<Cell<u64>>,
) -> Result<Vec<Box<dyn Method>>, AllocError> {
    let mut methods: Vec<Box<dyn Method>> = Vec::new(alloc);
    add_methods(alloc, &mut methods, &[1, 2, 3, 4])?;
    methods.push(Box::new(
        alloc,
        CountingMethod {
            calls: calls.clone()?,
        },
    )?)?;
    add_methods(alloc, &mut methods, &[6, 7, 8, 9])?;
    Ok(methods)
}

// A dam over three days, which lets out what flows in. Each day it is asked once before the rule fires, and once behind it.
const DAM: Simulation<'static> = Simulation {
    model: b"format = 1\n[run]\nstart = \"2020-01-01T00:00\"\nstep = \"24h\"\nsteps = 3\n[[object]]\nname = \"Dam\"\nkind = \"reservoir\"\ninitial_storage = 1000\n",
    inputs: b"slot,step,value\nDam.Inflow,1-3,100\n",
    status: 0,
    out: Any,
    err: Any,
};

const PASS: &[u8] = b"RULE \"pass\": Dam.Outflow[t] := Dam.Inflow[t]; ENDRULE\n";

const SECOND_DAY: &[u8] = b"batch,slot,step,value\n1,Dam.Inflow,2,130\n";

// How often its method is asked in a run of these words.
fn calls_of(alloc: Global, words: &[&str]) -> Result<Option<u64>, NoMemory> {
    let calls = Rc::new(alloc, Cell::new(0))?;
    let Ok(methods) = Catalogue::of(counting_methods(alloc, &calls)?) else {
        return Err(NoMemory);
    };
    if runs_with(
        alloc,
        &methods,
        words,
        Failing::Nothing,
        PASS,
        SECOND_DAY,
        DAM,
    )? {
        Ok(Some(calls.get()))
    } else {
        Ok(None)
    }
}

#[test]
fn no_method_is_asked_where_a_timestep_is_taken_over(rt: HostRuntime) -> Result<(), Fail> {
    let words = [
        "run", "m.toml", "p.rpl", "i.csv", "--edits", "e.csv", "--reuse",
    ];
    assert!(rt; calls_of(rt.alloc(), &words)? == Some(8));
    assert!(rt; calls_of(rt.alloc(), &words[..6])? == Some(12));
    Ok(())
}
