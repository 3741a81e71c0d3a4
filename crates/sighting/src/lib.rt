// What C gets of sight, as include/wexxolin.h declares it.
#![tactic(auto)]

pub mod inner;

// Does a leg have sight, 1 or 0, and what stops it first: nothing (kind 0), a cell (1), an edge, its nearer vertex first (2), or a
// vertex (3).
#[repr(C)]
#[derive(Clone, Copy)]
pub struct Seen {
    pub number: u64,
    pub place: u64,
    pub second: u64,
    pub sight: u64,
    pub kind: u64,
    pub x: u64,
    pub y: u64,
    pub x2: u64,
    pub y2: u64,
}
