// The open list of a board. Each call has the list right before and after: every node's key is its leader's f as it is now.
ghost use Rattle.std.specs.Prelude.{◌≡◌, ◌+◌, ◌*◌, ◌≤◌, ◌<◌};
ghost use Rattle.board.specs.Limits.{largest_side};
ghost use Rattle.board.specs.Board.{number_of};
ghost use Rattle.table.specs.Lengths.{Known};
ghost use Rattle.open.specs.Groups.{leaf_at, group_end};
ghost use Rattle.open.specs.Marked.{Sited, Small, Listed, Lower, Looked, Opens, Closes};

use board::Vertex;
use ranks::inner::ahead;
use table::inner::units_between;
use tournament::tree::{Leader, NO_KEY, enter, renew};

// The vertices of a group.
pub const GROUP: usize = 8;

// The leaf of the group of (x, y).
fn leaf(width: usize, height: usize, x: usize, y: usize) -> usize
    requires { (width ≤ largest_side) × (height ≤ largest_side) × (x ≤ width) × (y ≤ height) }
    ensures { result ≡ leaf_at width height x y }
{
    let per = width / GROUP + 1;
    per * (height + 1) + per * y + x / GROUP
}

// The column just past the group of column x.
fn group_end(width: usize, x: usize) -> usize
    requires { (width ≤ largest_side) × (x ≤ width) }
    ensures { result ≡ group_end width x }
{
    let end = x / GROUP * GROUP + GROUP;
    if end <= width { end } else { width + 1 }
}

// Of the open vertices in the group of (x, y), the one that is taken first.
fn look(
    width: usize,
    height: usize,
    x: usize,
    y: usize,
    gx: usize,
    gy: usize,
    g: &[u64],
    marks: &[u8],
    legs: &[Vertex],
    table: &[u32],
) -> Leader
    requires sited { Sited width height x y gx gy }
    requires small { Small ((width + 1) * (height + 1)) g.now marks.now legs.now }
    requires known { Known (width * width + height * height) table.now }
    ensures { Looked width height x y gx gy g.now marks.now legs.now result.vertex result.f }
{
    let row = y * (width + 1);
    let end = row + group_end(width, x);
    let start = row + x / GROUP * GROUP;
    let mut first = Leader {
        vertex: start,
        f: NO_KEY,
    };
    for v in start..end {
        if marks[v] == 1 {
            let own = g[v];
            let f = own + units_between(v - row, y, gx, gy, table);
            if ahead(f, own, legs[v], v, first.f, first.vertex, g, legs) {
                first = Leader { vertex: v, f };
            }
        }
    }
    first
}

// The vertex v at (x, y) opens with the g `own` and so many legs, or is open and these are better than what it has.
pub fn open_vertex(
    width: usize,
    height: usize,
    x: usize,
    y: usize,
    gx: usize,
    gy: usize,
    v: usize,
    own: u64,
    count: Vertex,
    g: &mut [u64],
    marks: &mut [u8],
    legs: &mut [Vertex],
    leads: &mut [Vertex],
    keys: &mut [u64],
    table: &[u32],
)
    requires sited { Sited width height x y gx gy }
    requires lower { Lower width x y v own count g.old marks.old legs.old }
    requires listed { Listed width height gx gy g.old marks.old legs.old leads.old keys.old }
    requires known { Known (width * width + height * height) table.now }
    ensures { Opens width height gx gy v own count g.old marks.old legs.old g.new marks.new legs.new leads.new keys.new }
{
    let f = own + units_between(x, y, gx, gy, table);
    enter(
        leaf(width, height, x, y),
        v,
        own,
        count,
        f,
        g,
        legs,
        leads,
        keys,
    );
    g[v] = own;
    legs[v] = count;
    marks[v] = 1;
}

// The vertex v at (x, y) is expanded: its group is looked through, and the nodes above are made anew.
pub fn close_vertex(
    width: usize,
    height: usize,
    x: usize,
    y: usize,
    gx: usize,
    gy: usize,
    v: usize,
    g: &[u64],
    marks: &mut [u8],
    legs: &[Vertex],
    leads: &mut [Vertex],
    keys: &mut [u64],
    table: &[u32],
)
    requires sited { Sited width height x y gx gy }
    requires v_value { v ≡ number_of width x y }
    requires listed { Listed width height gx gy g.now marks.old legs.now leads.old keys.old }
    requires known { Known (width * width + height * height) table.now }
    ensures { Closes width height gx gy v g.now marks.old legs.now marks.new leads.new keys.new }
{
    marks[v] = 2;
    let leader = look(width, height, x, y, gx, gy, g, marks, legs, table);
    renew(leaf(width, height, x, y), leader, g, legs, leads, keys);
}
