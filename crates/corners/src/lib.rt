// A path's vertex numbers as points: the x and y of each vertex, as route files have them.
#![tactic(auto)]

ghost use Rattle.std.specs.Prelude.{◌≡◌, false, ◌++◌, ◌≤◌, length, drop};
ghost use Rattle.board.specs.Limits.{largest_side};
ghost use Rattle.corners.specs.Corners.{columns, rows, has_off, points_refusal_row, said_points, PointsTold};

use board::inner::{column_of, row_of, side_fits};
use board::{Numbered, Row, SIDE, Vertex};

// Why no points are told: 1, 4 for a vertex off every board, or 21 for a slice that is shorter than the path.
#[derive(Clone, Copy, PartialEq, Eq)]
pub enum PointsRefusal {
    Side,
    Off,
    Short,
}

impl Numbered for PointsRefusal {
    ghost row = { points_refusal_row };

    fn row(self) -> Row {
        match self {
            PointsRefusal::Side => Row::of(1),
            PointsRefusal::Off => Row::of(4),
            PointsRefusal::Short => Row::of(21),
        }
    }
}

// Whether a vertex lies below every board of this width.
fn has_off(path: &[Vertex], width: usize) -> bool
    requires { width ≤ largest_side }
    ensures { result ≡ has_off path.now width }
{
    path.iter().any(|vertex| SIDE < row_of(width, *vertex))
}

// The x and y of each vertex.
fn tell_points(path: &[Vertex], width: usize, xs: &mut [u8], ys: &mut [u8])
    requires width_le_largest_side { (width ≤ largest_side) × (has_off path.now width ≡ false) }
    requires path_in_bounds { (length path.now ≤ length xs.old) × (length path.now ≤ length ys.old) }
    ensures { (xs.new ≡ columns path.now width ++ drop (length path.now) xs.old) × (ys.new ≡ rows path.now width ++ drop (length path.now) ys.old) }
{
    for (k, vertex) in path.iter().enumerate() {
        xs[k] = column_of(width, *vertex) as u8;
        ys[k] = row_of(width, *vertex) as u8;
    }
}

// Writes the x and y of a path's vertices on a board of this width into the lent slices.
pub fn path_points(
    path: &[Vertex],
    width: usize,
    xs: &mut [u8],
    ys: &mut [u8],
) -> Result<(), PointsRefusal>
    ensures { PointsTold path.now width xs.old ys.old (said_points result) xs.new ys.new }
{
    if !side_fits(width) {
        return Err(PointsRefusal::Side);
    }
    if has_off(path, width) {
        return Err(PointsRefusal::Off);
    }
    if (xs.len() < path.len()) | (ys.len() < path.len()) {
        return Err(PointsRefusal::Short);
    }
    tell_points(path, width, xs, ys);
    Ok(())
}
