// A leg between two vertices of a checked board: what the walks go along.
ghost use Rattle.board.specs.Checked.{board_of};
ghost use Rattle.legs.specs.Inner.{EndsOn};

use board::checked::Board;
use board::{Refusal, check_leg};

// The leg from (ax, ay) to (bx, by).
#[derive(Clone, Copy)]
pub struct Leg<'a> {
    pub board: Board<'a>,
    pub ax: usize,
    pub ay: usize,
    pub bx: usize,
    pub by: usize,
    ghost ends: { EndsOn (board_of board) ax ay bx by },
}

impl<'a> Leg<'a> {
    ghost use Rattle.std.specs.Prelude.{◌≡◌, IfOk};
    ghost use Rattle.board.specs.Board.{board};
    ghost use Rattle.board.specs.Handed.{verdict, refusal_row, leg_rows};
    ghost use Rattle.legs.specs.Checked.{Between};

    // The leg that is asked for, or why the checks refuse it.
    pub fn checked(
        cells: &'a [u8],
        width: usize,
        height: usize,
        ax: usize,
        ay: usize,
        bx: usize,
        by: usize,
    ) -> Result<Self, Refusal>
        ensures row { verdict refusal_row result ≡ leg_rows (board cells.now width height) ax ay bx by }
        ensures same { IfOk result (Between (board cells.now width height) ax ay bx by) }
    {
        check_leg(cells, width, height, ax, ay, bx, by)?;
        let board = Board {
            cells,
            width,
            height,
        };
        Ok(Leg {
            board,
            ax,
            ay,
            bx,
            by,
        })
    }
}
