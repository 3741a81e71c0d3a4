// One look at the four cells round a vertex tells which of its eight neighbours it sees, and whether it is pinched.
#![tactic(auto)]

pub mod inner;
pub mod places;
