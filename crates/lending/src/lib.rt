// The slices that are lent to the check of the bureau's routes: whether they are long enough.
#![tactic(auto)]

ghost use Rattle.std.specs.Prelude.{◌≡◌};
ghost use Rattle.lending.specs.Short.{refusal_of};

use bureau::CheckRefusal;

pub mod inner;

// How long the slices are: the board's, the four that a search works in, and the two for the results.
#[derive(Clone, Copy)]
pub struct Lengths {
    pub board: usize,
    pub g: usize,
    pub parents: usize,
    pub marks: usize,
    pub legs: usize,
    pub units: usize,
    pub counts: usize,
}

// Which is too short: 19 the board's, 6 one that a search works in, 21 one for the results.
#[derive(Clone, Copy, PartialEq, Eq)]
pub enum Short {
    Board,
    Work,
    Results,
}

impl From<Short> for CheckRefusal {
    ghost from_gives = { λ short refusal. refusal ≡ refusal_of short };

    fn from(short: Short) -> CheckRefusal {
        match short {
            Short::Board => CheckRefusal::Board,
            Short::Work => CheckRefusal::Work,
            Short::Results => CheckRefusal::Results,
        }
    }
}
