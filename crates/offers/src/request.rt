// What is asked of a search, once it has passed the checks.
ghost use Rattle.std.specs.Prelude.{◌+◌, ◌*◌};
ghost use Rattle.board.specs.Inner.{OnBoard};
ghost use Rattle.board.specs.Checked.{board_of};
ghost use Rattle.table.specs.Lengths.{Known};

use guard::guarded::GuardedBoard;

// A board, the start (sx, sy) and the goal (gx, gy) on it, and a table that has the length of each of its legs.
#[derive(Clone, Copy)]
pub struct Request<'a, 't> {
    pub guarded: GuardedBoard<'a>,
    pub sx: usize,
    pub sy: usize,
    pub gx: usize,
    pub gy: usize,
    pub table: &'t [u32],
    ghost start: { OnBoard (board_of guarded.board) sx sy },
    ghost goal: { OnBoard (board_of guarded.board) gx gy },
    ghost known: { Known (guarded.board.width * guarded.board.width + guarded.board.height * guarded.board.height) table.now },
}
