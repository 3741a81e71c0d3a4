// Where the points of a net in a route file stand: at the net's ends, and on the board. They are read from the records where they stand.
#![tactic(auto)]

pub mod inner;
