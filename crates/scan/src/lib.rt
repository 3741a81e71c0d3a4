// One record of a route file, judged by what was read before it.
#![tactic(auto)]

pub mod inner;

// What the records before say: the last net, the place that its next record must have, if it can have one, and how many
// nets and points there are.
#[derive(Clone, Copy, Default)]
pub struct Progress {
    pub last: usize,
    pub next: Option<usize>,
    pub nets: usize,
    pub points: usize,
}
