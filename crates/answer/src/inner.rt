// A call for the crates above: the answer of a search that found a path.
ghost use Rattle.std.specs.Prelude.{◌^◌, ◌<◌, length};
ghost use Rattle.theta.specs.Back.{Traced};
ghost use Rattle.answer.specs.Answers.{handed_route};
ghost use Rattle.answer.specs.Inner.{PathGiven};

use crate::{Answer, RequestRefusal};
use board::Vertex;
use length::inner::exact_cells;
use path::inner::{count_path, write_path};

// The path that the parents give, written if the lent slice can hold it.
pub fn tell_path(
    start: Vertex,
    goal: Vertex,
    units: u64,
    legs: usize,
    expansions: u64,
    tests: u64,
    parents: &[Vertex],
    path: &mut [Vertex],
) -> Result<Answer, RequestRefusal>
    requires traced { Traced (length parents.now) start parents.now goal }
    requires units_bound { units < 2 ^ 53 }
    ensures { PathGiven start goal units legs expansions tests parents.now path.old path.new (handed_route result) }
{
    let vertices = count_path(start, goal, parents);
    let room = path.len();
    if room < vertices {
        return Err(RequestRefusal::Short(vertices));
    }
    write_path(start, goal, vertices, parents, path);
    Ok(Answer::Found {
        cells: exact_cells(units),
        units,
        vertices,
        legs,
        expansions,
        tests,
    })
}
