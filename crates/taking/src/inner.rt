// Calls for the turns, which say what they require: a taken vertex is expanded.
ghost use Rattle.std.specs.Prelude.{◌≡◌, ◌^◌, ◌≤◌, ◌<◌};
ghost use Rattle.board.specs.Limits.{largest_side};
ghost use Rattle.board.specs.Board.{column_of, row_of};
ghost use Rattle.offers.specs.Request.{asked, size_of};
ghost use Rattle.theta.specs.Lent.{state, marked, Rounded};
ghost use Rattle.taking.specs.Taking.{Taking};
ghost use Rattle.offers.specs.Offers.{ListedFor};

use board::Vertex;
use board::inner::{column_of, row_of};
use offers::Spot;
use offers::request::Request;
use open::list::close_vertex;
use round::inner::round;

// The place of a vertex, by its number. The only divisions by a number that is not known beforehand are here.
fn spot_of(width: usize, v: Vertex) -> Spot
    requires { width ≤ largest_side }
    ensures { (result.x ≡ column_of width v) × (result.y ≡ row_of width v) × (result.number ≡ v) }
{
    Spot {
        x: column_of(width, v),
        y: row_of(width, v),
        number: v as usize,
    }
}

// The vertex v is expanded: it leaves the open list, and its neighbours are looked at.
// The sight tests so far go in and come out.
pub fn expand(
    request: &Request<'_, '_>,
    v: usize,
    tests: u64,
    g: &mut [u64],
    parents: &mut [Vertex],
    marks: &mut [u8],
    legs: &mut [Vertex],
    leads: &mut [Vertex],
    keys: &mut [u64],
) -> u64
    requires taking { Taking request.now v (state g.old parents.old marks.old legs.old 0 tests) }
    requires tests_bound { tests < 2 ^ 62 }
    requires listed_for { ListedFor request.now g.old marks.old legs.old leads.old keys.old }
    ensures rounded { Rounded (asked request.now) v (size_of request.now) (marked v (state g.old parents.old marks.old legs.old 0 tests)) (state g.new parents.new marks.new legs.new 0 result) }
    ensures listed_for_2 { ListedFor request.now g.new marks.new legs.new leads.new keys.new }
{
    let board = request.guarded.board;
    let u = spot_of(board.width, v as Vertex);
    let parent = spot_of(board.width, parents[v]);
    close_vertex(
        board.width,
        board.height,
        u.x,
        u.y,
        request.gx,
        request.gy,
        v,
        g,
        marks,
        legs,
        leads,
        keys,
        request.table,
    );
    round(
        request, u, parent, tests, g, parents, marks, legs, leads, keys,
    )
}
