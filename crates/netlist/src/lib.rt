// The nets of a job by their index.
#![tactic(auto)]

pub mod inner;
