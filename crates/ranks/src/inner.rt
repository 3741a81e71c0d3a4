// The order in which open vertices are taken, as the code tests it. The search knows no other test.
ghost use Rattle.std.specs.Prelude.{◌≡◌, ◌<◌, length};
ghost use Rattle.theta.specs.Order.{ranked, sooner};
ghost use Rattle.ranks.specs.Ranks.{seen};

use board::Vertex;

// Whether the vertex v, with this f, g and count of legs, is taken rather than the holder, whose f is the key.
pub fn ahead(
    f: u64,
    own: u64,
    count: Vertex,
    v: usize,
    key: u64,
    holder: usize,
    g: &[u64],
    legs: &[Vertex],
) -> bool
    requires { (holder < length g.now) × (holder < length legs.now) }
    ensures { result ≡ sooner (ranked f own count v) (seen g.now legs.now holder key) }
{
    if f != key {
        return f < key;
    }
    let held = g[holder];
    let fewest = legs[holder];
    if own != held {
        return own < held;
    }
    if count != fewest {
        return count < fewest;
    }
    v < holder
}
