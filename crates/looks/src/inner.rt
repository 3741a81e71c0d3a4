// One vertex beside a taken vertex u is looked at.
ghost use Rattle.std.specs.Prelude.{◌^◌, ◌<◌};
ghost use Rattle.offers.specs.Request.{board_of, asked};
ghost use Rattle.offers.specs.Offers.{Taken, Beside, ListedFor};
ghost use Rattle.theta.specs.Lent.{state, Looked};

use board::Vertex;
use legs::leg::Leg;
use offers::Spot;
use offers::goal::Goal;
use offers::inner::{candidate, is_visible, legs_by, settle, wins};
use offers::request::Request;

// The vertex w beside u is looked at, if it is a visible neighbour that is not yet expanded. The sight tests so far go in and
// come out.
pub fn look(
    request: &Request<'_, '_>,
    u: Spot,
    parent: Spot,
    w: Spot,
    tests: u64,
    g: &mut [u64],
    parents: &mut [Vertex],
    marks: &mut [u8],
    legs: &mut [Vertex],
    leads: &mut [Vertex],
    keys: &mut [u64],
) -> u64
    requires taken { Taken request.now u parent (state g.old parents.old marks.old legs.old 0 tests) }
    requires beside { Beside (board_of request.now) u w }
    requires tests_bound { tests < 2 ^ 63 }
    requires listed_for { ListedFor request.now g.old marks.old legs.old leads.old keys.old }
    ensures looked { Looked (asked request.now) u.number w.number (state g.old parents.old marks.old legs.old 0 tests) (state g.new parents.new marks.new legs.new 0 result) }
    ensures listed_for_2 { ListedFor request.now g.new marks.new legs.new leads.new keys.new }
{
    let v = w.number;
    let mark = marks[v];
    if mark == 2 {
        return tests;
    }
    let board = request.guarded.board;
    let asked = Leg {
        board,
        ax: request.sx,
        ay: request.sy,
        bx: request.gx,
        by: request.gy,
    };
    if !is_visible(&asked, request.guarded.copy, u, w, mark) {
        return tests;
    }
    let offer = candidate(&asked, u, parent, w, request.table);
    let c = offer.parent;
    let own = g[c] + offer.units;
    let count = legs_by(c, legs);
    let old = g[v];
    let had = legs[v];
    if wins(mark, own, count, old, had) {
        let goal = Goal {
            width: board.width,
            height: board.height,
            x: asked.bx,
            y: asked.by,
            table: request.table,
        };
        settle(
            &goal, w, c, own, count, g, parents, marks, legs, leads, keys,
        );
    }
    tests + 1
}
