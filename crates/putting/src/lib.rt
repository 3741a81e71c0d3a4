// Bytes put into a slice piece by piece.
#![tactic(auto)]

pub mod inner;
