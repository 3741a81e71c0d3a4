// What a record of a route file gives, and whether it may stand behind the records before it.
#![tactic(auto)]

pub mod inner;
