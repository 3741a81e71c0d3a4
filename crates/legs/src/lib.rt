// What a leg crosses, what stops it, and which of two things on it is nearer: definitions and their laws. The walks that find
// it are in `walks`, the call for users in `sight`.
#![tactic(auto)]

pub mod leg;

// What stops a leg: nothing, a cell, a unit edge with its nearer vertex first, or a vertex.
#[derive(Clone, Copy, PartialEq, Eq)]
pub enum Stop {
    Clear,
    Cell(usize, usize),
    Edge(usize, usize, usize, usize),
    Vertex(usize, usize),
}
