// The calls for the crate above: direction for C.
ghost use Rattle.std.specs.Prelude.{◌≡◌};
ghost use Rattle.direction.specs.Answers.{handed_direction, direction_row, direction_between_row};
ghost use Rattle.aiming.specs.Aiming.{told_direction};

use crate::Toward;
use board::Numbered;
use direction::{Direction, DirectionRefusal};

// What C gets of a direction.
impl From<Result<Direction, DirectionRefusal>> for Toward {
    ghost from_gives = { λ answer toward. toward ≡ told_direction (handed_direction answer) };

    fn from(answer: Result<Direction, DirectionRefusal>) -> Toward {
        match answer {
            Ok(direction) => Toward {
                number: 0,
                place: 0,
                second: 0,
                x: direction.x,
                y: direction.y,
            },
            Err(why) => {
                let row = why.row();
                Toward {
                    number: row.number,
                    place: row.place as u64,
                    second: row.second as u64,
                    x: 0.0,
                    y: 0.0,
                }
            }
        }
    }
}

// The direction of a leg by its differences.
pub fn direction_for_c(dx: i32, dy: i32) -> Toward
    ensures { result ≡ told_direction (direction_row dx dy) }
{
    Direction::of(dx, dy).into()
}

// The direction of a leg by its vertices.
pub fn direction_between_for_c(ax: usize, ay: usize, bx: usize, by: usize) -> Toward
    ensures { result ≡ told_direction (direction_between_row ax ay bx by) }
{
    Direction::between(ax, ay, bx, by).into()
}
