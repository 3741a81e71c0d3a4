// What C gets of a route, as include/wexxolin.h declares it.
#![tactic(auto)]

ghost use Rattle.std.specs.Prelude.{◌≡◌};
ghost use Rattle.router.specs.Answers.{handed_route};
ghost use Rattle.routing.specs.Routing.{told_route};

use board::Numbered;
use router::{Answer, RequestRefusal};

// A route.
#[repr(C)]
#[derive(Clone, Copy)]
pub struct Found {
    pub number: u64,
    pub place: u64,
    pub second: u64,
    pub cells: f64,
    pub units: u64,
    pub vertices: u64,
    pub legs: u64,
    pub expansions: u64,
    pub tests: u64,
}

// A path, or none with both counts; of a refusal its row alone.
impl From<Result<Answer, RequestRefusal>> for Found {
    ghost from_gives = { λ answer told. told ≡ told_route (handed_route answer) };

    fn from(answer: Result<Answer, RequestRefusal>) -> Self {
        let nothing = Found {
            number: 0,
            place: 0,
            second: 0,
            cells: 0.0,
            units: 0,
            vertices: 0,
            legs: 0,
            expansions: 0,
            tests: 0,
        };
        match answer {
            Ok(
                Answer::Found {
                    cells,
                    units,
                    vertices,
                    legs,
                    expansions,
                    tests,
                },
            ) => Found {
                cells,
                units,
                vertices: vertices as u64,
                legs: legs as u64,
                expansions,
                tests,
                ..nothing
            },
            Ok(Answer::NoPath { expansions, tests }) => Found {
                number: 8,
                expansions,
                tests,
                ..nothing
            },
            Err(why) => {
                let row = why.row();
                Found {
                    number: row.number,
                    place: row.place as u64,
                    second: row.second as u64,
                    ..nothing
                }
            }
        }
    }
}
