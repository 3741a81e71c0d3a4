// One record after those before it: what was read so far, or why the job is refused.
#![tactic(auto)]

pub mod inner;

// What the records so far say: the board's sides, the last net's number and how many nets.
#[derive(Clone, Copy)]
pub struct Progress {
    pub width: usize,
    pub height: usize,
    pub last: usize,
    pub nets: usize,
}
