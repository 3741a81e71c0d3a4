// The lines that the route program prints, as bytes.
#![tactic(auto)]

ghost use Rattle.std.specs.Prelude.{◌≡◌};
ghost use Rattle.board.specs.Limits.{largest_side};
ghost use Rattle.lines.specs.Lines.{longest_line};
ghost use Rattle.lines.specs.Answers.{short_row};

use board::{MOST, Numbered, Row};

pub mod inner;

// A line: of a net with a path or without one, or of a refused job with its one or two places.
#[derive(Clone, Copy)]
pub enum Line {
    Path {
        number: u64,
        units: u64,
        expansions: u64,
        tests: u64,
    },
    None {
        number: u64,
        expansions: u64,
        tests: u64,
    },
    Refused {
        number: u64,
        place: u64,
    },
    RefusedTwice {
        number: u64,
        place: u64,
        second: u64,
    },
}

// The lent slice is shorter than the line: document 01's 21.
#[derive(Clone, Copy)]
pub struct Short;

impl Numbered for Short {
    ghost row = { short_row };

    fn row(self) -> Row {
        Row::of(21)
    }
}

// The most bytes of a line without its vertices: words, spaces, the newline and four numbers of 20 digits.
pub const WORDS: usize = 31 + 4 * 20;

// The most bytes of a vertex: a space, two coordinates of two digits and a comma.
pub const FIELD: usize = 6;

// The bytes that suffice for every line of a route.
pub const LONGEST_LINE: usize = WORDS + FIELD * MOST;

pub fn longest_line() -> usize
    ensures { result ≡ longest_line largest_side }
{
    LONGEST_LINE
}
