// The search of a request that has passed the checks, and its answer.
#![tactic(auto)]

pub mod inner;
