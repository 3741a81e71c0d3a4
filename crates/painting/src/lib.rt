// The cells of an accepted job's board: free, and blocked where a keepout is.
#![tactic(auto)]

pub mod inner;
