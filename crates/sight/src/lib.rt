// Line of sight between two vertices of a board.
#![tactic(auto)]

ghost use Rattle.std.specs.Prelude.{◌≡◌};
ghost use Rattle.board.specs.Board.{board};
ghost use Rattle.sight.specs.Answers.{handed_sight, sight_row};

use board::Refusal;
use legs::Stop;
use legs::leg::Leg;
use walks::inner::first_stop;

// What stops the leg from (ax, ay) to (bx, by) first, counted from (ax, ay), for any board and any two vertices; or why the
// request is refused (1 to 5).
#[tactic(auto, unfolding(crate::specs::Answers::sight_row))]
pub fn sight(
    cells: &[u8],
    width: usize,
    height: usize,
    ax: usize,
    ay: usize,
    bx: usize,
    by: usize,
) -> Result<Stop, Refusal>
    ensures { handed_sight result ≡ sight_row (board cells.now width height) ax ay bx by }
{
    let leg = Leg::checked(cells, width, height, ax, ay, bx, by)?;
    Ok(first_stop(&leg))
}
