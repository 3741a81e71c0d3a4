// A net for which no path is claimed: whether there is one.
#![tactic(auto)]

pub mod inner;
