// The line of a net with a path.
#![tactic(auto)]

pub mod inner;
