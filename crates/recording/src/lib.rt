// What C gets of a route file that is written, and of a path turned into points, as include/wexxolin.h declares it.
#![tactic(auto)]

pub mod inner;

// How many records were written.
#[repr(C)]
#[derive(Clone, Copy)]
pub struct Recorded {
    pub number: u64,
    pub place: u64,
    pub second: u64,
    pub records: u64,
}

// What is said of a path turned into points: it has no value.
#[repr(C)]
#[derive(Clone, Copy)]
pub struct Turned {
    pub number: u64,
    pub place: u64,
    pub second: u64,
}
