// The lines that the route program prints for a job, each composed in a buffer and handed to the system.
#![tactic(auto)]

pub mod inner;
