// Which legs a given path may have.
#![tactic(auto)]

pub mod inner;
