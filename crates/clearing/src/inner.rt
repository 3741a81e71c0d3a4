// Calls for the search, which say what they require: the lent slices before its first turn.
ghost use Rattle.std.specs.Prelude.{◌≤◌, ◌<◌, length};
ghost use Rattle.board.specs.Limits.{most_vertices};
ghost use Rattle.theta.specs.Lent.{state};
ghost use Rattle.clearing.specs.Clearing.{Cleared};

use board::Vertex;

// No vertex is seen, none has legs, and the start has itself as parent; what lies beyond the n vertices is kept.
pub fn begin(
    n: usize,
    start: Vertex,
    g: &mut [u64],
    parents: &mut [Vertex],
    marks: &mut [u8],
    legs: &mut [Vertex],
)
    requires start_lt_n { (start < n) × (n ≤ most_vertices) }
    requires n_in_bounds { (n ≤ length g.old) × (n ≤ length parents.old) × (n ≤ length marks.old) × (n ≤ length legs.old) }
    ensures { Cleared n start (state g.old parents.old marks.old legs.old 0 0) (state g.new parents.new marks.new legs.new 0 0) }
{
    g[..n].fill(0);
    parents[..n].fill(0);
    marks[..n].fill(0);
    legs[..n].fill(0);
    parents[start as usize] = start;
}
