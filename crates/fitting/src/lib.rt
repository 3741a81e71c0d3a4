// Whether a line has room in so many bytes.
#![tactic(auto)]

pub mod inner;
