// The path of a search that found one, read back from the parents.
#![tactic(auto)]

pub mod inner;
