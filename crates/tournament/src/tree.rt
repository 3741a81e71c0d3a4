// The nodes of the tournament: each has the open vertex under it that is taken first, and its f. The nodes 2 i and 2 i + 1 are below i.
ghost use Rattle.std.specs.Prelude.{◌≡◌, ◌≢◌, ◌+◌, ◌-◌, ◌*◌, ◌/◌, ◌^◌, ◌<◌, MatchOption};
ghost use Rattle.reach.specs.Turns.{at};
ghost use Rattle.theta.specs.Order.{ranked};
ghost use Rattle.tournament.specs.Contest.{no_key};
ghost use Rattle.tournament.specs.Nodes.{Room, Seated, Won, Entered, Renewed};
ghost use Rattle.ranks.specs.Ranks.{numbers, seen};

use board::Vertex;
use ranks::inner::ahead;

// The key of a node under which no vertex is open.
pub const NO_KEY: u64 = 0xffff_ffff_ffff_ffff;

// A vertex and its f; or any vertex, and no key.
#[derive(Clone, Copy)]
pub struct Leader {
    pub vertex: usize,
    pub f: u64,
}

// Of two leaders, the one that is taken first.
fn winner(a: Leader, b: Leader, g: &[u64], legs: &[Vertex]) -> Leader
    requires { (a.vertex < numbers g.now legs.now) × (b.vertex < numbers g.now legs.now) }
    ensures { Won (seen g.now legs.now) a.vertex a.f b.vertex b.f result.vertex result.f }
{
    let w = b.vertex;
    if b.f <= a.f {
        if ahead(b.f, g[w], legs[w], w, a.f, a.vertex, g, legs) {
            return b;
        }
    }
    a
}

// The other node below the node above i.
fn sibling(i: usize) -> usize
    requires { (1 < i) × (i < 2 ^ 60) }
    ensures { result ≡ i / 2 * 4 + 1 - i }
{
    i ^ 1
}

// The vertex v of the leaf, with this f, g and count of legs, opens, or was open with a later rank: it climbs while it is ahead.
pub fn enter(
    leaf: usize,
    v: usize,
    own: u64,
    count: Vertex,
    f: u64,
    g: &[u64],
    legs: &[Vertex],
    leads: &mut [Vertex],
    keys: &mut [u64],
)
    requires room { Room leaf leads.old keys.old }
    requires seated { Seated (numbers g.now legs.now) leads.old }
    requires v_bound { v < numbers g.now legs.now }
    ensures { Entered (seen g.now legs.now) (numbers g.now legs.now) leaf (ranked f own count v) leads.old keys.old leads.new keys.new }
{
    let mut i = leaf;
    while 0 < i {
        let key = keys[i];
        if !ahead(f, own, count, v, key, leads[i] as usize, g, legs) {
            return;
        }
        leads[i] = v as Vertex;
        keys[i] = f;
        i = i / 2;
    }
}

// The leaf has this leader now, and each node above it the sooner of its two.
pub fn renew(
    leaf: usize,
    leader: Leader,
    g: &[u64],
    legs: &[Vertex],
    leads: &mut [Vertex],
    keys: &mut [u64],
)
    requires room { Room leaf leads.old keys.old }
    requires seated { Seated (numbers g.now legs.now) leads.old }
    requires vertex_bound { leader.vertex < numbers g.now legs.now }
    ensures { Renewed (seen g.now legs.now) (numbers g.now legs.now) leaf leader.vertex leader.f leads.old keys.old leads.new keys.new }
{
    let mut i = leaf;
    let mut above = i / 2;
    let mut first = leader;
    while 0 < above {
        leads[i] = first.vertex as Vertex;
        keys[i] = first.f;
        let s = sibling(i);
        let beside = Leader {
            vertex: leads[s] as usize,
            f: keys[s],
        };
        first = winner(first, beside, g, legs);
        i = above;
        above = i / 2;
    }
    leads[i] = first.vertex as Vertex;
    keys[i] = first.f;
}

// The leader of all, if a vertex is open.
pub fn first(leads: &[Vertex], keys: &[u64]) -> Option<Leader>
    requires { Room 1 leads.now keys.now }
    ensures { MatchOption result (at keys.now 1 ≡ no_key) (λ leader. (leader.vertex ≡ at leads.now 1) × (leader.f ≡ at keys.now 1) × (leader.f ≢ no_key)) }
{
    let f = keys[1];
    if f == NO_KEY {
        return None;
    }
    Some(Leader {
        vertex: leads[1] as usize,
        f,
    })
}
