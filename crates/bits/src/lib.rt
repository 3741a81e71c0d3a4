// The bits of a packed board: the row rule, and one byte at a time.
#![tactic(auto)]

pub mod inner;
