// A call for the crates above, which says what it requires.
ghost use Rattle.std.specs.Prelude.{◌≡◌};
ghost use Rattle.board.specs.Checked.{board_of};
ghost use Rattle.legs.specs.Inner.{EndsOn};
ghost use Rattle.bureau.specs.Paths.{is_leg_wrong};
ghost use Rattle.bureau.specs.Inner.{as_point};

use board::checked::Board;
use bureau::Point;
use legs::Stop;
use legs::leg::Leg;
use walks::inner::first_stop;
use walls::pinch::is_pinched;

// 27: whether the leg has no length or no sight, or ends in a pinched vertex that is not the path's last.
pub fn is_leg_wrong(board: &Board<'_>, from: Point, to: Point, last: bool) -> bool
    requires { EndsOn (board_of board.now) from.x from.y to.x to.y }
    ensures { result ≡ is_leg_wrong (board_of board.now) (as_point from) (as_point to) last }
{
    if from == to {
        return true;
    }
    let leg = Leg {
        board: *board,
        ax: from.x,
        ay: from.y,
        bx: to.x,
        by: to.y,
    };
    if first_stop(&leg) != Stop::Clear {
        return true;
    }
    is_pinched(board, to.x, to.y) & !last
}
