// A call for the crates above: the line of a refusal, by its row of the table.
ghost use Rattle.std.specs.Prelude.{◌≡◌};
ghost use Rattle.lines.specs.Lines.{has_second};
ghost use Rattle.lines.specs.Inner.{Refusing};

use crate::Line;
use board::Row;

// The numbers of the refusals that name a second place: the unused byte, the vertex off the board and the wrong leg.
const UNUSED: u64 = 23;

const OFF_BOARD: u64 = 26;

const WRONG_LEG: u64 = 27;

// Whether a refusal names a second place.
#[tactic(auto, unfolding(crate::specs::Lines::has_second))]
fn has_second(number: u64) -> bool
    ensures { result ≡ has_second number }
{
    number == UNUSED || number == OFF_BOARD || number == WRONG_LEG
}

// The line of a refusal: only for those it has the second place.
pub fn refusal_line(row: Row) -> Line
    ensures { Refusing row.number row.place row.second result }
{
    let number = row.number;
    let place = row.place as u64;
    if !has_second(number) {
        return Line::Refused { number, place };
    }
    Line::RefusedTwice {
        number,
        place,
        second: row.second as u64,
    }
}
