// The walk over the cells of a leg that is neither horizontal nor vertical.
ghost use Rattle.std.specs.Prelude.{◌≡◌, ◌+◌, ◌*◌, ◌-◌, ◌≤◌, ◌<◌, length};
ghost use Rattle.board.specs.Limits.{most_vertices};
ghost use Rattle.board.specs.Checked.{board_of};
ghost use Rattle.legs.specs.Leg.{far};
ghost use Rattle.legs.specs.Stops.{cells_stop};
ghost use Rattle.slants.specs.Walk.{corner_of, Below, stop_at, pinch, StepsOf};

use crate::Across;
use legs::Stop;
use legs::leg::Leg;
use walls::leg::{distance, forward};

// What a step along the leg adds to a cell's index (right, down) or takes from it (left, up).
#[derive(Clone, Copy)]
pub struct Steps {
    right: usize,
    left: usize,
    down: usize,
    up: usize,
}

// The steps along the leg.
fn steps_of(leg: &Leg<'_>) -> Steps
    ensures { StepsOf leg.now.board.width leg.now.ax leg.now.ay leg.now.bx leg.now.by result }
{
    Steps {
        right: forward(leg.ax, leg.bx, 1),
        left: forward(leg.bx, leg.ax, 1),
        down: forward(leg.ay, leg.by, leg.board.width),
        up: forward(leg.by, leg.ay, leg.board.width),
    }
}

// The index of the cell that lies these two steps back from the vertex (x, y).
fn cell_beside(width: usize, x: usize, y: usize, row: usize, column: usize) -> usize
    requires { (row + column ≤ y * width + x) × (y * width + x < 4 * most_vertices) }
    ensures { result ≡ y * width + x - row - column }
{
    y * width + x - row - column
}

// Where the leg goes on by a corner from a free cell to the cell `next`: whether the corner is pinched.
#[tactic(auto, unfolding(crate::specs::Walk::pinch))]
fn is_pinch(cells: &[u8], beside: usize, below: usize, next: usize) -> bool
    requires { (beside < length cells.now) × (below < length cells.now) × (next < length cells.now) }
    ensures { result ≡ pinch cells.now beside below next }
{
    if cells[beside] == 1 {
        if cells[below] == 1 {
            return cells[next] != 1;
        }
    }
    false
}

// The corner of the cell with this index that lies nearer to the leg's first end.
#[tactic(auto, unfolding(crate::specs::Walk::corner_of))]
fn corner_of(width: usize, ax: usize, ay: usize, bx: usize, by: usize, index: usize) -> Stop
    requires { (0 < width) × (index < 4 * most_vertices) }
    ensures { result ≡ corner_of width ax ay bx by index }
{
    Stop::Vertex(
        index % width + forward(bx, ax, 1),
        index / width + forward(by, ay, 1),
    )
}

// What stops the leg from (ax, ay) to (bx, by) on a board of that width, by what the walk met.
#[tactic(auto, unfolding(crate::specs::Walk::stop_at))]
pub fn stop_at(width: usize, ax: usize, ay: usize, bx: usize, by: usize, met: Across) -> Stop
    requires { (0 < width) × Below (4 * most_vertices) met }
    ensures { result ≡ stop_at width ax ay bx by met }
{
    match met {
        Across::Nothing => Stop::Clear,
        Across::Blocked(index) => Stop::Cell(index % width, index / width),
        Across::Pinch(index) => corner_of(width, ax, ay, bx, by, index),
    }
}

// The first blocked cell that the leg crosses, or pinched corner strictly inside it, if there is one. Column by column from the first
// end, and in each column the cells that the leg crosses.
// The leg is n columns and m rows long and has come to the cell u columns and v rows on. Drawn with columns m wide and rows
// n high it is a diagonal: `ahead` is how far the row goes on past the column's start, n * (v + 1) - m * u.
// It is compiled into each caller, so that no leg is written out for it.
#[inline(always)]
pub fn first_blocked(leg: &Leg<'_>) -> Across
    requires slanted { (0 < far leg.now.ax leg.now.bx) × (0 < far leg.now.ay leg.now.by) }
    ensures met { stop_at leg.now.board.width leg.now.ax leg.now.ay leg.now.bx leg.now.by result ≡ cells_stop (board_of leg.now.board) leg.now.ax leg.now.ay leg.now.bx leg.now.by }
    ensures upper_bound { Below (4 * most_vertices) result }
{
    let cells = leg.board.cells;
    let width = leg.board.width;
    let n = distance(leg.ax, leg.bx);
    let m = distance(leg.ay, leg.by);
    let step = steps_of(leg);
    let last = cell_beside(width, leg.bx, leg.by, step.down, step.right);
    let mut cell = cell_beside(width, leg.ax, leg.ay, step.up, step.left);
    let mut ahead = n;
    let found = 'columns: loop {
        loop {
            if cells[cell] == 1 {
                break 'columns Across::Blocked(cell);
            }
            // The column ends in this row.
            if m <= ahead {
                break;
            }
            ahead += n;
            cell = cell + step.down - step.up;
        }
        // It ends where the row does, at a corner: the leg is at its end, or goes on between two cells that are only touched.
        if ahead == m {
            if cell == last {
                break 'columns Across::Nothing;
            }
            let beside = cell + step.right - step.left;
            let below = cell + step.down - step.up;
            let next = beside + step.down - step.up;
            if is_pinch(cells, beside, below, next) {
                break 'columns Across::Pinch(next);
            }
            ahead += n;
            cell = below;
        }
        ahead -= m;
        cell = cell + step.right - step.left;
    };
    found
}
