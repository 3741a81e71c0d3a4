// A call for the search, which says what it requires.
ghost use Rattle.std.specs.Prelude.{◌+◌, ◌*◌, ◌≤◌, length};
ghost use Rattle.board.specs.Checked.{board_of};
ghost use Rattle.guard.specs.Guard.{place_of, AllShut, Guarded};
ghost use Rattle.guard.specs.Copying.{Copied, Rows, Bits};

use board::checked::Board;

// The guarded copy. The rows are copied as they are, which is fast, and then each byte that is not 1 is made 0.
pub fn guard_cells(board: &Board<'_>, guard: &mut [u8])
    requires { AllShut (board_of board.now) guard.old }
    ensures { Guarded (board_of board.now) guard.new }
{
    copy_rows(board.cells, board.width, board.height, guard);
    make_bits((board.width + 2) * (board.height + 2), guard);
}

// Every row of cells into the copy, one line down and one column on.
fn copy_rows(cells: &[u8], width: usize, height: usize, guard: &mut [u8])
    requires { (height * width ≤ length cells.now) × ((width + 2) * (height + 2) ≤ length guard.old) }
    ensures { Rows cells.now width height guard.old guard.new }
{
    for y in 0..height {
        copy_row(cells, width, y, guard);
    }
}

// The row y of cells.
fn copy_row(cells: &[u8], width: usize, y: usize, guard: &mut [u8])
    requires { (y * width + width ≤ length cells.now) × (place_of width 1 (y + 1) + width ≤ length guard.old) }
    ensures { Copied cells.now (y * width) (place_of width 1 (y + 1)) width guard.old guard.new }
{
    let from = y * width;
    let to = (y + 1) * (width + 2) + 1;
    guard[to..to + width].copy_from_slice(&cells[from..from + width]);
}

// The first n bytes: 1 stays, any other becomes 0.
fn make_bits(n: usize, guard: &mut [u8])
    requires { n ≤ length guard.old }
    ensures { Bits n guard.old guard.new }
{
    for i in 0..n {
        guard[i] = (guard[i] == 1) as u8;
    }
}
