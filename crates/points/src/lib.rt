// The points of one net in a route file, judged by 25, 26 and 27.
#![tactic(auto)]

pub mod inner;
