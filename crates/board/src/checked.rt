// A board whose sides and cells have passed the checks: what the crates above work on.
ghost use Rattle.board.specs.Board.{board};
ghost use Rattle.board.specs.Inner.{Sound};

use crate::{Refusal, check_board};

// The cells row by row, a byte each, and the sides.
#[derive(Clone, Copy)]
pub struct Board<'a> {
    pub cells: &'a [u8],
    pub width: usize,
    pub height: usize,
    ghost sound: { Sound (board cells.now width height) },
}

impl<'a> Board<'a> {
    ghost use Rattle.std.specs.Prelude.{◌≡◌, ◌<◌, IfOk};
    ghost use Rattle.board.specs.Board.{blocked};
    ghost use Rattle.board.specs.Handed.{verdict, refusal_row, board_rows};
    ghost use Rattle.board.specs.Checked.{board_of};

    // The board that is asked for, or why the checks refuse it.
    pub fn checked(cells: &'a [u8], width: usize, height: usize) -> Result<Self, Refusal>
        ensures row { verdict refusal_row result ≡ board_rows (board cells.now width height) }
        ensures same { IfOk result (λ b. board_of b ≡ board cells.now width height) }
    {
        check_board(cells, width, height)?;
        Ok(Board {
            cells,
            width,
            height,
        })
    }

    // Whether a cell of the board is blocked.
    pub fn is_cell_blocked(&self, x: usize, y: usize) -> bool
        requires { (x < self.now.width) × (y < self.now.height) }
        ensures { result ≡ blocked (board_of self.now) x y }
    {
        self.cells[y * self.width + x] == 1
    }
}
