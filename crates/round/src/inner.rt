// The round of a taken vertex u: the neighbours that it sees are looked at, in increasing order of their numbers.
ghost use Rattle.std.specs.Prelude.{◌≡◌, ◌+◌, ◌-◌, ◌/◌, ◌%◌, ◌^◌, ◌≤◌, ◌<◌};
ghost use Rattle.board.specs.Board.{number_of};
ghost use Rattle.board.specs.Limits.{largest_side};
ghost use Rattle.offers.specs.Request.{asked, size_of};
ghost use Rattle.offers.specs.Offers.{Taken, ListedFor};
ghost use Rattle.theta.specs.Lent.{state, Rounded};

use board::Vertex;
use glance::inner::sighted;
use glance::places::Places;
use looks::inner::look;
use offers::Spot;
use offers::request::Request;

// The vertex at the place k round u, four places to a row.
fn spot_at(width: usize, u: Spot, k: usize) -> Spot
    requires width_le_largest_side { (width ≤ largest_side) × (u.x ≤ width) × (u.y ≤ largest_side) }
    requires number_value { u.number ≡ number_of width u.x u.y }
    requires k_bound { (k / 4 ≤ 2) × (1 ≤ u.x + k % 4) × (1 ≤ u.y + k / 4) }
    ensures { (result.x ≡ u.x + k % 4 - 1) × (result.y ≡ u.y + k / 4 - 1) × (result.number ≡ number_of width result.x result.y) }
{
    let wide = width + 1;
    let column = k % 4;
    let row = k / 4;
    Spot {
        x: u.x + column - 1,
        y: u.y + row - 1,
        number: u.number + row * wide + column - (wide + 1),
    }
}

// The neighbours that u sees, which one look at the cells round it tells, place by place.
pub fn round(
    request: &Request<'_, '_>,
    u: Spot,
    parent: Spot,
    tests: u64,
    g: &mut [u64],
    parents: &mut [Vertex],
    marks: &mut [u8],
    legs: &mut [Vertex],
    leads: &mut [Vertex],
    keys: &mut [u64],
) -> u64
    requires taken { Taken request.now u parent (state g.old parents.old marks.old legs.old 0 tests) }
    requires tests_bound { tests < 2 ^ 62 }
    requires listed_for { ListedFor request.now g.old marks.old legs.old leads.old keys.old }
    ensures rounded { Rounded (asked request.now) u.number (size_of request.now) (state g.old parents.old marks.old legs.old 0 tests) (state g.new parents.new marks.new legs.new 0 result) }
    ensures listed_for_2 { ListedFor request.now g.new marks.new legs.new leads.new keys.new }
{
    let width = request.guarded.board.width;
    let seen = sighted(&request.guarded, u.x, u.y);
    let mut t = tests;
    for place in (Places { left: seen }) {
        let w = spot_at(width, u, place);
        t = look(
            request, u, parent, w, t, g, parents, marks, legs, leads, keys,
        );
    }
    t
}
