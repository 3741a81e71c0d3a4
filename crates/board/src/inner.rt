// Calls for the crates above, which have checked their board: each says what it requires.
ghost use Rattle.std.specs.Prelude.{◌≡◌, ◌&&◌, leb, ◌-◌, ◌≤◌};
ghost use Rattle.board.specs.Limits.{largest_side};
ghost use Rattle.board.specs.Board.{number_of, column_of, row_of};
ghost use Rattle.board.specs.Handed.{side_fits};

use crate::{SIDE, Vertex};

// Whether a board may have this side.
pub fn side_fits(n: usize) -> bool
    ensures { result ≡ side_fits n }
{
    1 <= n && n <= SIDE
}

// The line before the line c, of vertices or of cells; for the first line, that line itself.
pub fn line_before(c: usize) -> usize
    ensures { result ≡ c - 1 }
{
    if c == 0 { 0 } else { c - 1 }
}

// Whether (x, y) is a vertex of a board.
pub fn is_vertex(width: usize, height: usize, x: usize, y: usize) -> bool
    ensures { result ≡ (leb x width && leb y height) }
{
    x <= width && y <= height
}

// A vertex's number.
pub fn number_of(width: usize, x: usize, y: usize) -> Vertex
    requires { (width ≤ largest_side) × (x ≤ width) × (y ≤ largest_side) }
    ensures { result ≡ number_of width x y }
{
    (y * (width + 1) + x) as Vertex
}

// The column of a vertex number.
pub fn column_of(width: usize, v: Vertex) -> usize
    requires { width ≤ largest_side }
    ensures { result ≡ column_of width v }
{
    v as usize % (width + 1)
}

// The row of a vertex number.
pub fn row_of(width: usize, v: Vertex) -> usize
    requires { width ≤ largest_side }
    ensures { result ≡ row_of width v }
{
    v as usize / (width + 1)
}
