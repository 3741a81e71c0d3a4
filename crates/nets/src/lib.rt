// The nets of a job, each routed and its line printed.
#![tactic(auto)]

pub mod inner;
