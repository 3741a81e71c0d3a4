// What a neighbour of a taken vertex is offered, and how it takes it.
#![tactic(auto)]

pub mod goal;
pub mod inner;
pub mod request;

// A vertex: its place and its number.
#[derive(Clone, Copy)]
pub struct Spot {
    pub x: usize,
    pub y: usize,
    pub number: usize,
}

// What a neighbour is offered: a parent, by its number, and the length of the leg from there.
#[derive(Clone, Copy)]
pub struct Offer {
    pub parent: usize,
    pub units: u64,
}
