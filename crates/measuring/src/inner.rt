// The calls for the crate above: length for C.
ghost use Rattle.std.specs.Prelude.{◌≡◌};
ghost use Rattle.length.specs.Answers.{handed_length, length_row, length_between_row};
ghost use Rattle.measuring.specs.Measuring.{told_length};

use crate::Long;
use board::{Numbered, Refusal};
use length::Length;

// What C gets of a length.
impl From<Result<Length, Refusal>> for Long {
    ghost from_gives = { λ answer long. long ≡ told_length (handed_length answer) };

    fn from(answer: Result<Length, Refusal>) -> Long {
        match answer {
            Ok(length) => Long {
                number: 0,
                place: 0,
                second: 0,
                units: length.units,
                cells: length.cells(),
            },
            Err(why) => {
                let row = why.row();
                Long {
                    number: row.number,
                    place: row.place as u64,
                    second: row.second as u64,
                    units: 0,
                    cells: 0.0,
                }
            }
        }
    }
}

// The length of a leg by its differences.
pub fn length_for_c(dx: i32, dy: i32) -> Long
    ensures { result ≡ told_length (length_row dx dy) }
{
    Length::of(dx, dy).into()
}

// The length of a leg by its vertices.
pub fn length_between_for_c(ax: usize, ay: usize, bx: usize, by: usize) -> Long
    ensures { result ≡ told_length (length_between_row ax ay bx by) }
{
    Length::between(ax, ay, bx, by).into()
}
