// Sight along a leg, and what stops it first: by the walk over its unit edges, or by that over the cells that it crosses.
#![tactic(auto)]

pub mod inner;
