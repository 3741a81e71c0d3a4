// Which jobs are refused, and where: a job's bytes are checked record by record.
#![tactic(auto)]

pub mod inner;

// The most bytes of a job.
pub const LONGEST: usize = 8192;
