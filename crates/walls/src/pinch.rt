// Vertices where two blocked cells touch only at that corner.
ghost use Rattle.std.specs.Prelude.{◌≡◌, true};
ghost use Rattle.board.specs.Checked.{board_of};
ghost use Rattle.legs.specs.Pinched.{on_inside, pinched};

use board::checked::Board;

// Whether the vertex (x, y), on the inside of the board, is pinched. The two cells right of it are read first: where they are
// alike, the other two do not matter.
pub fn is_inner_pinched(board: &Board<'_>, x: usize, y: usize) -> bool
    requires { on_inside (board_of board.now) x y ≡ true }
    ensures { result ≡ pinched (board_of board.now) x y }
{
    let ne = board.is_cell_blocked(x, y - 1);
    let se = board.is_cell_blocked(x, y);
    if ne == se {
        return false;
    }
    let nw = board.is_cell_blocked(x - 1, y - 1);
    let sw = board.is_cell_blocked(x - 1, y);
    (nw == se) & (sw == ne)
}

// Whether the vertex (x, y) is pinched.
pub fn is_pinched(board: &Board<'_>, x: usize, y: usize) -> bool
    ensures { result ≡ pinched (board_of board.now) x y }
{
    let inside = ((0 < x) & (x < board.width)) & ((0 < y) & (y < board.height));
    if inside {
        is_inner_pinched(board, x, y)
    } else {
        false
    }
}
