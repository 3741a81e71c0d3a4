// One round of the search: the neighbours of a taken vertex are looked at.
#![tactic(auto)]

pub mod inner;
