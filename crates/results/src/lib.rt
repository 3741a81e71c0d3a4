// The length and the legs of a net's path in a route file.
#![tactic(auto)]

pub mod inner;
