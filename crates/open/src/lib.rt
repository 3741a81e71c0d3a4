// The open list: a tournament of the open vertices, over groups of eight vertices of a row.
#![tactic(auto)]

pub mod list;
