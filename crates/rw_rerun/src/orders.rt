//! Keeps the orders in which the cells of timesteps rose.
use rw_base::NoMemory;
use rw_engine::KeptStep;
use std::alloc::Global;
use std::mem::{replace, swap};

// So many orders are kept beside the last one.
const FEW: usize = 8;

/// The order in which the cells of the timestep that was run last rose, and beside it some of others that had other numbers of cells:
/// the last timesteps of a run mostly look at fewer than those before them.
#[derive(Drop)]
pub(crate) struct Orders {
    pub(crate) last: Vec<u16>,
    others: Vec<Vec<u16>>,
}

impl Orders {
    /// None is known yet.
    pub(crate) fn new(alloc: Global) -> Orders {
        Orders {
            last: Vec::new(alloc),
            others: Vec::new(alloc),
        }
    }

    /// Makes the last one that of as many cells as a timestep had in an earlier run.
    pub(crate) fn choose(
        &mut self,
        alloc: Global,
        entry: &Option<KeptStep>,
    ) -> Result<(), NoMemory> {
        match entry {
            None => Ok(()),
            Some(kept) => choose_of(alloc, &mut self.last, &mut self.others, kept.looked().len()),
        }
    }
}

// Makes the last one that of so many cells, where it isn't.
fn choose_of(
    alloc: Global,
    last: &mut Vec<u16>,
    others: &mut Vec<Vec<u16>>,
    count: usize,
) -> Result<(), NoMemory> {
    if last.len() == count || is_found(last, others, count) {
        return Ok(());
    }
    put_aside(alloc, last, others)
}

// Whether one of the others is of so many cells. It is the last one then.
fn is_found(last: &mut Vec<u16>, others: &mut Vec<Vec<u16>>, count: usize) -> bool {
    for other in others.iter_mut() {
        if other.len() == count {
            swap(last, other);
            return true;
        }
    }
    false
}

// Keeps it beside what comes, while there is room.
fn put_aside(
    alloc: Global,
    last: &mut Vec<u16>,
    others: &mut Vec<Vec<u16>>,
) -> Result<(), NoMemory> {
    if others.len() < FEW {
        others.push(replace(last, Vec::new(alloc)))?;
    }
    Ok(())
}
