// The walk along a horizontal or vertical leg.
ghost use Rattle.std.specs.Prelude.{◌≡◌, cond, ◌+◌, ◌≤◌, ◌<◌};
ghost use Rattle.board.specs.Limits.{most_vertices};
ghost use Rattle.board.specs.Checked.{board_of};
ghost use Rattle.legs.specs.Leg.{far};
ghost use Rattle.legs.specs.Pinched.{crosswise};
ghost use Rattle.legs.specs.Stops.{edge_from, edges_stop};
ghost use Rattle.edges.specs.Edges.{index_on, vertex_from, Within, stop_after};

use crate::Along;
use board::checked::Board;
use board::inner::line_before;
use legs::Stop;
use walls::leg;
use walls::walls::line_behind;

// The unit edge from p to q on the row c (level) or on the column c.
#[tactic(auto, unfolding(legs::specs::Stops::edge_from))]
fn edge(level: bool, c: usize, p: usize, q: usize) -> Stop
    ensures { result ≡ edge_from level c p q }
{
    if level {
        Stop::Edge(p, c, q, c)
    } else {
        Stop::Edge(c, p, c, q)
    }
}

// The vertex at k on the row c (level) or on the column c.
#[tactic(auto, unfolding(crate::specs::Edges::vertex_from))]
fn vertex(level: bool, c: usize, k: usize) -> Stop
    ensures { result ≡ vertex_from level c k }
{
    if level {
        Stop::Vertex(k, c)
    } else {
        Stop::Vertex(c, k)
    }
}

// What stops the leg, by what the walk met.
#[tactic(auto, unfolding(crate::specs::Edges::stop_after))]
pub fn stop_after(level: bool, c: usize, p: usize, q: usize, met: Along) -> Stop
    requires { Within (far p q) met }
    ensures { result ≡ stop_after level c p q met }
{
    match met {
        Along::Nothing => Stop::Clear,
        Along::Wall(steps) => edge(
            level,
            c,
            leg::vertex(p, q, steps),
            leg::vertex(p, q, steps + 1),
        ),
        Along::Pinch(steps) => vertex(level, c, leg::vertex(p, q, steps)),
    }
}

// How many lines of cells lie across a level leg, or across an upright one.
fn lines_across(level: bool, width: usize, height: usize) -> usize
    ensures { result ≡ cond level height width }
{
    if level { height } else { width }
}

// How far apart in `cells` neighbours lie along a level leg, or along an upright one.
fn stride(level: bool, width: usize) -> usize
    ensures { result ≡ cond level 1 width }
{
    if level { 1 } else { width }
}

// The index of the cell at k of a line of cells along the leg.
#[tactic(auto, unfolding(crate::specs::Edges::index_on))]
fn index_on(level: bool, width: usize, line: usize, k: usize) -> usize
    requires { index_on level width line k < most_vertices }
    ensures { result ≡ index_on level width line k }
{
    if level {
        line * width + k
    } else {
        k * width + line
    }
}

// Whether of four cells round a vertex two diagonally opposite ones are blocked and the other two free.
fn is_crosswise(nw: bool, ne: bool, sw: bool, se: bool) -> bool
    ensures { result ≡ crosswise nw ne sw se }
{
    (nw == se) & (ne == sw) & (nw != ne)
}

// The first unit edge with blocked cells on both sides, or pinched vertex strictly inside the leg, if there is one. Step by step from
// p to q: at each the vertex, by the two cells passed last (none at the first end, where they count as free) and the next two, then
// the edge between these. The next two are held by their indices, which a step moves by the stride, so that no step multiplies; the
// step of an index would leave the board behind the last edge, so the steps are counted by hand.
pub fn first_walled(board: &Board<'_>, level: bool, c: usize, p: usize, q: usize) -> Along
    requires c_bound { c ≤ cond level board.now.height board.now.width }
    requires p_bound { (p ≤ cond level board.now.width board.now.height) × (q ≤ cond level board.now.width board.now.height) }
    ensures result_value { stop_after level c p q result ≡ edges_stop (board_of board.now) level c p q }
    ensures upper_bound { Within (far p q) result }
{
    let cells = board.cells;
    let width = board.width;
    let n = leg::distance(p, q);
    let low = line_before(c);
    let high = line_behind(c, lines_across(level, width, board.height));
    // A leg of no steps has no edge and no cells beside it.
    if n == 0 {
        return Along::Nothing;
    }
    let first = leg::cell(p, q, 0);
    let mut low_cell = index_on(level, width, low, first);
    let mut high_cell = index_on(level, width, high, first);
    let along = stride(level, width);
    let ahead = leg::forward(p, q, along);
    let back = leg::forward(q, p, along);
    let mut passed_low = false;
    let mut passed_high = false;
    let mut u: usize = 0;
    let found = 'edges: loop {
        let at_low = cells[low_cell] == 1;
        let at_high = cells[high_cell] == 1;
        if is_crosswise(passed_low, at_low, passed_high, at_high) {
            break 'edges Along::Pinch(u);
        }
        if at_low & at_high {
            break 'edges Along::Wall(u);
        }
        u += 1;
        if u == n {
            break 'edges Along::Nothing;
        }
        passed_low = at_low;
        passed_high = at_high;
        low_cell = low_cell + ahead - back;
        high_cell = high_cell + ahead - back;
    };
    found
}
