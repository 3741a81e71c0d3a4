// What C gets of a packed board that is read or written, as include/wexxolin.h declares it.
#![tactic(auto)]

pub mod inner;

// What is said of a board read or written: it has no value.
#[repr(C)]
#[derive(Clone, Copy)]
pub struct Packing {
    pub number: u64,
    pub place: u64,
    pub second: u64,
}
