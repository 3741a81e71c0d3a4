// The whole square root of a word.
#![tactic(auto)]

pub mod inner;
