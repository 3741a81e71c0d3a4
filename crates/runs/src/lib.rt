// The records of one net in a route file: where they begin, and how many points they give.
#![tactic(auto)]

pub mod inner;
