// Calls for the crates above, which have checked their board: each says what it requires.
ghost use Rattle.table.specs.Lengths.{Known};
ghost use Rattle.theta.specs.Lent.{state, Searched};
ghost use Rattle.search.specs.Asked.{problem_of, diagonal, Room};

use board::inner::number_of;
use board::{LINE, SIDE, Vertex};
use clearing::inner::begin;
use entries::{large_lengths, middle_lengths};
use guard::guarded::GuardedBoard;
use guard::inner::guard_cells;
use legs::leg::Leg;
use offers::request::Request;
use open::list::{GROUP, open_vertex};
use small::small_lengths;
use table::{MIDDLE_SIDE, SMALL_SIDE};
use tournament::tree::NO_KEY;
use turns::Outcome;
use turns::inner::run;

// The nodes of the largest board; node 0 is not used.
const NODES: usize = 2 * LINE * (SIDE / GROUP + 1);

// The cells of the largest board with a line of cells all round it.
const GUARDED: usize = (SIDE + 2) * (SIDE + 2);

// The search, by a table that has the lengths of its board. The nodes and the guarded copy of the cells are made here and not
// lent, so that each is read and written without a pointer to it.
fn find_by(
    asked: &Leg<'_>,
    g: &mut [u64],
    parents: &mut [Vertex],
    marks: &mut [u8],
    legs: &mut [Vertex],
    table: &[u32],
) -> Outcome
    requires room { Room asked.now g.old parents.old marks.old legs.old }
    requires known { Known (diagonal asked.now) table.now }
    ensures { Searched (problem_of asked.now) (state g.old parents.old marks.old legs.old 0 0) (state g.new parents.new marks.new legs.new result.expansions result.tests) result.found }
{
    let board = asked.board;
    let mut guard = [1 as u8; GUARDED];
    guard_cells(&board, &mut guard);
    let guarded = GuardedBoard {
        board,
        copy: &guard,
    };
    let request = Request {
        guarded,
        sx: asked.ax,
        sy: asked.ay,
        gx: asked.bx,
        gy: asked.by,
        table,
    };
    let mut leads = [0 as Vertex; NODES];
    let mut keys = [NO_KEY; NODES];
    let start = number_of(board.width, request.sx, request.sy);
    begin(
        (board.width + 1) * (board.height + 1),
        start,
        g,
        parents,
        marks,
        legs,
    );
    open_vertex(
        board.width,
        board.height,
        request.sx,
        request.sy,
        request.gx,
        request.gy,
        start as usize,
        0,
        0,
        g,
        marks,
        legs,
        &mut leads,
        &mut keys,
        table,
    );
    run(&request, g, parents, marks, legs, &mut leads, &mut keys)
}

// The search from the first end of what is asked to the second. It leaves in the lent slices what the definition has for each vertex.
// The table that is made for it is no longer than its board asks for.
pub fn find(
    asked: &Leg<'_>,
    g: &mut [u64],
    parents: &mut [Vertex],
    marks: &mut [u8],
    legs: &mut [Vertex],
) -> Outcome
    requires { Room asked.now g.old parents.old marks.old legs.old }
    ensures { Searched (problem_of asked.now) (state g.old parents.old marks.old legs.old 0 0) (state g.new parents.new marks.new legs.new result.expansions result.tests) result.found }
{
    let width = asked.board.width;
    let height = asked.board.height;
    if (width <= SMALL_SIDE) & (height <= SMALL_SIDE) {
        let table = small_lengths();
        return find_by(asked, g, parents, marks, legs, &table);
    }
    if (width <= MIDDLE_SIDE) & (height <= MIDDLE_SIDE) {
        let table = middle_lengths();
        return find_by(asked, g, parents, marks, legs, &table);
    }
    let table = large_lengths();
    find_by(asked, g, parents, marks, legs, &table)
}
