// The nets of a job beside those of a route file: which are in only one of the two, and where a net's records stand.
#![tactic(auto)]

pub mod inner;
