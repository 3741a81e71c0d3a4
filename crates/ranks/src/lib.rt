// The ranks by which open vertices are taken: which of two comes first.
#![tactic(auto)]

pub mod inner;
