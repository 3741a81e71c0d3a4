// A checked board beside the guarded copy of its cells.
ghost use Rattle.board.specs.Checked.{board_of};
ghost use Rattle.guard.specs.Guard.{Guarded};

use board::checked::Board;

// The copy has a line of blocked cells all round the board's own.
#[derive(Clone, Copy)]
pub struct GuardedBoard<'a> {
    pub board: Board<'a>,
    pub copy: &'a [u8],
    ghost guarded: { Guarded (board_of board) copy.now },
}
