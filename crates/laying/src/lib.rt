// The records of routes, laid into a slice net after net.
#![tactic(auto)]

pub mod inner;
