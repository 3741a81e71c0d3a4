// A leg in steps from its first end, on one axis from a to b.
ghost use Rattle.std.specs.Prelude.{◌≡◌, ◌≤◌, ◌<◌};
ghost use Rattle.legs.specs.Leg.{far, vertex_at, cell_at};
ghost use Rattle.walls.specs.Leg.{forward};

// How far apart a and b are.
pub fn distance(a: usize, b: usize) -> usize
    ensures { result ≡ far a b }
{
    if a < b { b - a } else { a - b }
}

// The vertex s steps from a towards b.
pub fn vertex(a: usize, b: usize, s: usize) -> usize
    requires { s ≤ far a b }
    ensures { result ≡ vertex_at a b s }
{
    if a < b { a + s } else { a - s }
}

// The cell between the vertices s and s + 1 steps from a.
pub fn cell(a: usize, b: usize, s: usize) -> usize
    requires { s < far a b }
    ensures { result ≡ cell_at a b s }
{
    if a < b { a + s } else { a - (s + 1) }
}

// What a step from a towards b adds to an index where neighbours lie `stride` apart; `forward(b, a, stride)` is taken away.
pub fn forward(a: usize, b: usize, stride: usize) -> usize
    ensures { result ≡ forward a b stride }
{
    if a < b { stride } else { 0 }
}
