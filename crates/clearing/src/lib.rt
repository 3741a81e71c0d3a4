// The lent slices are cleared before a search.
#![tactic(auto)]

pub mod inner;
