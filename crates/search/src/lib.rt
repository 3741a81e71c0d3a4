// Basic Theta* on a board: the whole search, by the table of lengths that its board asks for.
#![tactic(auto)]

pub mod inner;
