// What a neighbour w of a taken vertex u is offered, whether it is visible, and how it takes the offer. Each call says what it requires.
ghost use Rattle.std.specs.Prelude.{◌≡◌, ◌||◌, ◌+◌, ◌<◌, eqb, ltb, length};
ghost use Rattle.board.specs.Limits.{most_vertices};
ghost use Rattle.spans.specs.Legs.{step};
ghost use Rattle.length.specs.Units.{units};
ghost use Rattle.board.specs.Checked.{board_of};
ghost use Rattle.guard.specs.Guard.{Guarded};
ghost use Rattle.table.specs.Lengths.{Known};
ghost use Rattle.open.specs.Marked.{Listed};
ghost use Rattle.offers.specs.Asked.{problem_of, admitted_to, diagonal};
ghost use Rattle.offers.specs.Request.{Placed};
ghost use Rattle.offers.specs.Offers.{Offered, Judging, Settling, Settled};
ghost use Rattle.reach.specs.Turns.{at};
ghost use Rattle.theta.specs.Order.{less_or};
ghost use Rattle.theta.specs.Lent.{state};

use crate::goal::Goal;
use crate::{Offer, Spot};
use board::Vertex;
use board::inner::number_of;
use glance::inner::is_pinched;
use guard::guarded::GuardedBoard;
use legs::leg::Leg;
use open::list::open_vertex;
use table::inner::units_between;
use walks::inner::sees;

// The leg from one vertex to another as an offer.
fn leg_from(asked: &Leg<'_>, from: Spot, w: Spot, table: &[u32]) -> Offer
    requires placed { Placed (board_of asked.now.board) from × Placed (board_of asked.now.board) w }
    requires known { Known (diagonal asked.now) table.now }
    ensures { (result.parent ≡ from.number) × (result.units ≡ units (step from.x w.x) (step from.y w.y)) }
{
    Offer {
        parent: from.number,
        units: units_between(from.x, from.y, w.x, w.y, table),
    }
}

// What the neighbour w is offered, by one sight test: the leg from the taken vertex's parent if that sees w, else from u itself.
pub fn candidate(asked: &Leg<'_>, u: Spot, parent: Spot, w: Spot, table: &[u32]) -> Offer
    requires placed { Placed (board_of asked.now.board) u × Placed (board_of asked.now.board) parent × Placed (board_of asked.now.board) w }
    requires known { Known (diagonal asked.now) table.now }
    ensures { Offered (problem_of asked.now) u.number parent.number w.number result.parent result.units }
{
    let leg = Leg {
        board: asked.board,
        ax: parent.x,
        ay: parent.y,
        bx: w.x,
        by: w.y,
    };
    if sees(&leg) {
        return leg_from(asked, parent, w, table);
    }
    leg_from(asked, u, w, table)
}

// The legs of a vertex that has this parent.
pub fn legs_by(parent: usize, legs: &[Vertex]) -> Vertex
    requires { (parent < length legs.now) × (parent < most_vertices) × (at legs.now parent < most_vertices) }
    ensures { result ≡ at legs.now parent + 1 }
{
    legs[parent] + 1
}

// Whether a vertex with this mark, g and legs gets the g `own` and `count` legs: it is unseen, or these are better.
pub fn wins(mark: u8, own: u64, count: Vertex, old: u64, had: Vertex) -> bool
    ensures { result ≡ (eqb mark 0 || less_or own old (ltb count had)) }
{
    if mark == 0 {
        return true;
    }
    if own != old {
        return own < old;
    }
    count < had
}

// The vertex w opens, or gets what is better: the g `own`, this parent and so many legs, and it enters the open list.
pub fn settle(
    goal: &Goal<'_>,
    w: Spot,
    parent: usize,
    own: u64,
    count: Vertex,
    g: &mut [u64],
    parents: &mut [Vertex],
    marks: &mut [u8],
    legs: &mut [Vertex],
    leads: &mut [Vertex],
    keys: &mut [u64],
)
    requires settling { Settling goal.now w parent own count (state g.old parents.old marks.old legs.old 0 0) }
    requires listed_for { Listed goal.now.width goal.now.height goal.now.x goal.now.y g.old marks.old legs.old leads.old keys.old }
    ensures { Settled goal.now w parent own count (state g.old parents.old marks.old legs.old 0 0) (state g.new parents.new marks.new legs.new 0 0) leads.new keys.new }
{
    let v = w.number;
    open_vertex(
        goal.width,
        goal.height,
        w.x,
        w.y,
        goal.x,
        goal.y,
        v,
        own,
        count,
        g,
        marks,
        legs,
        leads,
        keys,
        goal.table,
    );
    parents[v] = parent as Vertex;
}

// Whether w may be passed in this search: it is not pinched, or it is the start or the goal.
fn is_admitted(asked: &Leg<'_>, copy: &[u8], w: Spot) -> bool
    requires placed { Placed (board_of asked.now.board) w }
    requires guarded { Guarded (board_of asked.now.board) copy.now }
    ensures { result ≡ admitted_to asked.now w.number }
{
    let board = asked.board;
    if !is_pinched(&GuardedBoard { board, copy }, w.x, w.y) {
        return true;
    }
    let start = number_of(board.width, asked.ax, asked.ay) as usize;
    let goal = number_of(board.width, asked.bx, asked.by) as usize;
    (w.number == start) | (w.number == goal)
}

// Whether w, which u sees, is a visible neighbour of u. What has been seen before was admitted then: it is not asked again.
pub fn is_visible(asked: &Leg<'_>, copy: &[u8], u: Spot, w: Spot, mark: u8) -> bool
    requires judging { Judging asked.now u w mark }
    requires guarded { Guarded (board_of asked.now.board) copy.now }
    ensures { result ≡ (problem_of asked.now).near u.number w.number }
{
    if mark != 0 {
        return true;
    }
    is_admitted(asked, copy, w)
}
