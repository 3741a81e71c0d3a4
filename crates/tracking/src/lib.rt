// What C gets of a route file that is read, as include/wexxolin.h declares it.
#![tactic(auto)]

pub mod inner;

// How many nets and points were read.
#[repr(C)]
#[derive(Clone, Copy)]
pub struct Routes {
    pub number: u64,
    pub place: u64,
    pub second: u64,
    pub nets: u64,
    pub points: u64,
}
