// Calls for the crates above, which have searched: each says what it requires.
ghost use Rattle.std.specs.Prelude.{◌≡◌, ◌++◌, ◌≤◌, length, drop};
ghost use Rattle.theta.specs.Search.{trail};
ghost use Rattle.theta.specs.Back.{Traced};

use board::Vertex;

// How many vertices the path to the goal has: from parent to parent until the start is there.
pub fn count_path(start: Vertex, goal: Vertex, parents: &[Vertex]) -> usize
    requires { Traced (length parents.now) start parents.now goal }
    ensures { result ≡ length (trail start parents.now (length parents.now) goal) }
{
    let mut v = goal;
    let mut count = 1;
    while v != start {
        v = parents[v as usize];
        count += 1;
    }
    count
}

// Writes the path to the goal, of that many vertices, start first; what lies beyond it is kept.
pub fn write_path(
    start: Vertex,
    goal: Vertex,
    count: usize,
    parents: &[Vertex],
    path: &mut [Vertex],
)
    requires traced { Traced (length parents.now) start parents.now goal }
    requires count_value { (count ≡ length (trail start parents.now (length parents.now) goal)) × (count ≤ length path.old) }
    ensures { path.new ≡ trail start parents.now (length parents.now) goal ++ drop count path.old }
{
    let mut v = goal;
    for i in (1..count).rev() {
        path[i] = v;
        v = parents[v as usize];
    }
    path[0] = start;
}
