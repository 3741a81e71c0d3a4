// The route call's answer.
#![tactic(auto)]

ghost use Rattle.std.specs.Prelude.{◌≡◌};
ghost use Rattle.answer.specs.Answers.{request_row};
ghost use Rattle.answer.specs.declared.RequestRefusal.TheVariants.{Request};

use board::{Numbered, Refusal, Row};

pub mod inner;

// What a search finds: document 01's 0 and 8.
#[derive(Clone, Copy)]
pub enum Answer {
    // The length in cells and in units, the number of the path's vertices and of its legs, and both counts.
    Found {
        cells: f64,
        units: u64,
        vertices: usize,
        legs: usize,
        expansions: u64,
        tests: u64,
    },
    NoPath {
        expansions: u64,
        tests: u64,
    },
}

// Why a request gets no answer.
#[derive(Clone, Copy)]
pub enum RequestRefusal {
    // The checks refuse the request: document 01's 1 to 5.
    Request(Refusal),
    // A work slice is shorter than the number of vertices.
    Work,
    // The path slice is shorter than the path, which has so many vertices.
    Short(usize),
}

impl Numbered for RequestRefusal {
    ghost row = { request_row };

    fn row(self) -> Row {
        match self {
            RequestRefusal::Request(why) => why.row(),
            RequestRefusal::Work => Row::of(6),
            RequestRefusal::Short(needed) => Row::at(7, needed),
        }
    }
}

// What the checks refuse, the route call refuses.
impl From<Refusal> for RequestRefusal {
    ghost from_gives = { λ why refusal. refusal ≡ Request why };

    fn from(why: Refusal) -> Self {
        RequestRefusal::Request(why)
    }
}
