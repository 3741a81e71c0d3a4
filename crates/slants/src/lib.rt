// The walk along a leg that is neither horizontal nor vertical, over the cells that it crosses.
#![tactic(auto)]

pub mod inner;

// What the walk meets first: nothing, a blocked cell, by its index, or a pinched corner, by the index of the cell behind it.
#[derive(Clone, Copy)]
pub enum Across {
    Nothing,
    Blocked(usize),
    Pinch(usize),
}
