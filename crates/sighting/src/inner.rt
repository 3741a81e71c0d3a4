// The call for the crate above: sight for C.
ghost use Rattle.std.specs.Prelude.{◌≡◌};
ghost use Rattle.board.specs.Board.{board};
ghost use Rattle.board.specs.Handed.{answer};
ghost use Rattle.sight.specs.Answers.{seen_as, handed_sight, sight_row};
ghost use Rattle.sighting.specs.Sighting.{told_sight};

use crate::Seen;
use board::{Numbered, Refusal};
use legs::Stop;
use sight::sight;

// What C gets of an answer on sight.
impl From<Result<Stop, Refusal>> for Seen {
    ghost from_gives = { λ answer seen. seen ≡ told_sight (handed_sight answer) };

    fn from(answer: Result<Stop, Refusal>) -> Seen {
        match answer {
            Ok(Stop::Clear) => tell_seen(1, 0, 0, 0, 0, 0),
            Ok(Stop::Cell(x, y)) => tell_seen(0, 1, x, y, 0, 0),
            Ok(Stop::Edge(x, y, x2, y2)) => tell_seen(0, 2, x, y, x2, y2),
            Ok(Stop::Vertex(x, y)) => tell_seen(0, 3, x, y, 0, 0),
            Err(why) => {
                let row = why.row();
                Seen {
                    number: row.number,
                    place: row.place as u64,
                    second: row.second as u64,
                    ..tell_seen(0, 0, 0, 0, 0, 0)
                }
            }
        }
    }
}

// What C gets of an accepted request.
fn tell_seen(sight: u64, kind: u64, x: usize, y: usize, x2: usize, y2: usize) -> Seen
    ensures { result ≡ told_sight (answer (seen_as sight kind x y x2 y2)) }
{
    Seen {
        number: 0,
        place: 0,
        second: 0,
        sight,
        kind,
        x: x as u64,
        y: y as u64,
        x2: x2 as u64,
        y2: y2 as u64,
    }
}

// What stops the leg from (ax, ay) to (bx, by) first.
pub fn sight_for_c(
    cells: &[u8],
    width: usize,
    height: usize,
    ax: usize,
    ay: usize,
    bx: usize,
    by: usize,
) -> Seen
    ensures { result ≡ told_sight (sight_row (board cells.now width height) ax ay bx by) }
{
    sight(cells, width, height, ax, ay, bx, by).into()
}
