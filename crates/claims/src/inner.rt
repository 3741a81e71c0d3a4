// A call for the crates above, which says what it requires.
ghost use Rattle.std.specs.Prelude.{[]};
ghost use Rattle.board.specs.Checked.{board_of};
ghost use Rattle.bureau.specs.Answers.{searching};
ghost use Rattle.kinds.specs.Inner.{as_net};
ghost use Rattle.bureau.specs.Inner.{Room, EndsOf, NetJudged};

use board::Vertex;
use board::checked::Board;
use bureau::Fault;
use kinds::Net;
use legs::leg::Leg;
use search::inner::find;

// 28: no path is claimed, so one is searched for.
pub fn judge_none(
    board: &Board<'_>,
    net: Net,
    g: &mut [u64],
    parents: &mut [Vertex],
    marks: &mut [u8],
    legs: &mut [Vertex],
) -> Result<(), Fault>
    requires room { Room (board_of board.now) (searching g.old parents.old marks.old legs.old) }
    requires ends_of { EndsOf (board_of board.now) (as_net net) }
    ensures { NetJudged (board_of board.now) (as_net net) [] (searching g.old parents.old marks.old legs.old) (searching g.new parents.new marks.new legs.new) result }
{
    let asked = Leg {
        board: *board,
        ax: net.sx,
        ay: net.sy,
        bx: net.gx,
        by: net.gy,
    };
    if find(&asked, g, parents, marks, legs).found {
        return Err(Fault::Path);
    }
    Ok(())
}
