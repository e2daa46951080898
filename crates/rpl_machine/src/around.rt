//! Holds what a firing sees: the basin, the values of its slots, the functions that rules call by name, and the timestep.
use rpl_predef::Predefs;
use rw_base::StepNo;
use rw_model::Basin;
use rw_series::Series;

/// What is there around a firing: the basin, the values of its slots, the functions that rules call by name, and the timestep.
#[derive(Clone, Copy)]
pub(crate) struct Around<'a> {
    pub(crate) basin: &'a Basin,
    pub(crate) series: &'a Series,
    pub(crate) predefs: &'a Predefs,
    pub(crate) when: StepNo,
}
