// The routes of a file, gathered from its records into slices.
#![tactic(auto)]

pub mod inner;
