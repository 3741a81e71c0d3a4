// One neighbour of a taken vertex is looked at.
#![tactic(auto)]

pub mod inner;
