// What C gets of direction, as include/wexxolin.h declares it.
#![tactic(auto)]

pub mod inner;

// The direction of a leg.
#[repr(C)]
#[derive(Clone, Copy)]
pub struct Toward {
    pub number: u64,
    pub place: u64,
    pub second: u64,
    pub x: f64,
    pub y: f64,
}
