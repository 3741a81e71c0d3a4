// The guarded copy of a board's cells, which has a line of blocked cells all round it.
#![tactic(auto)]

pub mod guarded;
pub mod inner;
