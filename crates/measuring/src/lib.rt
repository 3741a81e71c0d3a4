// What C gets of length, as include/wexxolin.h declares it.
#![tactic(auto)]

pub mod inner;

// The length of a leg, in units and in cells.
#[repr(C)]
#[derive(Clone, Copy)]
pub struct Long {
    pub number: u64,
    pub place: u64,
    pub second: u64,
    pub units: u64,
    pub cells: f64,
}
