// The board: its largest side, its vertices' numbers, and the checks that every call makes first.
#![tactic(auto)]

ghost use Rattle.std.specs.Prelude.{◌≡◌, ltb, nat_lt, position, length};
ghost use Rattle.board.specs.Limits.{largest_side, most_vertices};
ghost use Rattle.board.specs.Board.{board};
ghost use Rattle.board.specs.Handed.{first_bad, bad_place, board_rows, leg_rows, refusal_row, verdict};

use inner::{is_vertex, side_fits};
pub use row::{Numbered, Row};

pub mod checked;
pub mod inner;
pub mod row;

// A vertex number as the lent slices hold it.
pub type Vertex = u16;

// The largest side of a board, in cells.
pub const SIDE: usize = 63;

// The most vertices of a row or a column.
pub const LINE: usize = SIDE + 1;

// The most vertices of a whole board.
pub const MOST: usize = LINE * LINE;

// Why the checks refuse a request: document 01's numbers 1 to 5, a bad cell byte with its index.
#[derive(Clone, Copy, PartialEq, Eq)]
pub enum Refusal {
    Side,
    Count,
    Byte(usize),
    First,
    Second,
}

impl Numbered for Refusal {
    ghost row = { refusal_row };

    fn row(self) -> Row {
        match self {
            Refusal::Side => Row::of(1),
            Refusal::Count => Row::of(2),
            Refusal::Byte(at) => Row::at(3, at),
            Refusal::First => Row::of(4),
            Refusal::Second => Row::of(5),
        }
    }
}

// The code's largest side is the definition's.
pub fn largest_side() -> usize
    ensures { result ≡ largest_side }
{
    SIDE
}

// And so are the most vertices of a board.
pub fn most_vertices() -> usize
    ensures { result ≡ most_vertices }
{
    MOST
}

// Whether some byte is neither 0 nor 1: with no way out of the loop, so that the compiler takes many bytes at once.
fn has_bad(cells: &[u8]) -> bool
    ensures { result ≡ ltb (first_bad cells.now) (length cells.now) }
{
    let mut bad = false;
    for cell in cells {
        bad |= 1 < *cell;
    }
    bad
}

// The index of the first byte that is neither 0 nor 1, if there is one.
fn first_bad(cells: &[u8]) -> Option<usize>
    ensures { result ≡ position (λ cell. nat_lt 1 cell) cells.now }
{
    cells.iter().position(|cell| 1 < *cell)
}

// The same, where a look at many bytes at once tells first that there is none.
fn find_bad(cells: &[u8]) -> Option<usize>
    ensures { result ≡ bad_place cells.now }
{
    if has_bad(cells) {
        first_bad(cells)
    } else {
        None
    }
}

// Refusals 1, 2 and 3: sides, number of cells, cell bytes.
pub fn check_board(cells: &[u8], width: usize, height: usize) -> Result<(), Refusal>
    ensures { verdict refusal_row result ≡ board_rows (board cells.now width height) }
{
    if !side_fits(width) {
        return Err(Refusal::Side);
    }
    if !side_fits(height) {
        return Err(Refusal::Side);
    }
    if cells.len() != width * height {
        return Err(Refusal::Count);
    }
    match find_bad(cells) {
        Some(at) => Err(Refusal::Byte(at)),
        None => Ok(()),
    }
}

// Refusals 1 to 5, the lowest first: the board's, then the first vertex and the second.
pub fn check_leg(
    cells: &[u8],
    width: usize,
    height: usize,
    ax: usize,
    ay: usize,
    bx: usize,
    by: usize,
) -> Result<(), Refusal>
    ensures { verdict refusal_row result ≡ leg_rows (board cells.now width height) ax ay bx by }
{
    check_board(cells, width, height)?;
    if !is_vertex(width, height, ax, ay) {
        return Err(Refusal::First);
    }
    if !is_vertex(width, height, bx, by) {
        return Err(Refusal::Second);
    }
    Ok(())
}
