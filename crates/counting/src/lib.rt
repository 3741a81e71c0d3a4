// What C gets of the count of blocked cells, as include/wexxolin.h declares it.
#![tactic(auto)]

pub mod inner;

// How many cells are blocked.
#[repr(C)]
#[derive(Clone, Copy)]
pub struct Counted {
    pub number: u64,
    pub place: u64,
    pub second: u64,
    pub blocked: u64,
}
