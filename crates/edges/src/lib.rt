// The walk along a leg on a row or a column, over its unit edges and the vertices between them.
#![tactic(auto)]

pub mod inner;

// What the walk meets first, by the steps before it from the leg's first end: nothing, a unit edge with blocked cells on both sides,
// or a pinched vertex.
#[derive(Clone, Copy)]
pub enum Along {
    Nothing,
    Wall(usize),
    Pinch(usize),
}
