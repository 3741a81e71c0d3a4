// The nets of a job beside the routes of a file: each judged, and measured where all are right.
#![tactic(auto)]

pub mod inner;
