// A tournament of vertices: each node has the open vertex under it that is taken first.
#![tactic(auto)]

pub mod tree;
