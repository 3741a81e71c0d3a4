// What C gets of the line call, as include/wexxolin.h declares it.
#![tactic(auto)]

pub mod inner;

// How many bytes the line has that was written.
#[repr(C)]
#[derive(Clone, Copy)]
pub struct Printed {
    pub number: u64,
    pub place: u64,
    pub second: u64,
    pub bytes: u64,
}
