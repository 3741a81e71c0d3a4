// The turns of the search on a board: each takes the first open vertex.
#![tactic(auto)]

pub mod inner;

// Whether there is a path, how many vertices were expanded, and how many sight tests were made.
#[derive(Clone, Copy)]
pub struct Outcome {
    pub found: bool,
    pub expansions: u64,
    pub tests: u64,
}
