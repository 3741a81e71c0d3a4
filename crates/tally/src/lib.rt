// The records and points of routes that are to be written, counted and judged net by net.
#![tactic(auto)]

pub mod inner;

// How many records and points routes have.
#[derive(Clone, Copy, PartialEq, Eq)]
pub struct Size {
    pub records: usize,
    pub points: usize,
}
