// A call for the crate above, which has checked the request: it says what it requires.
ghost use Rattle.search.specs.Asked.{problem_of, Room};
ghost use Rattle.answer.specs.Answers.{handed_route, slices};
ghost use Rattle.running.specs.Inner.{Ran};

use answer::inner::tell_path;
use answer::{Answer, RequestRefusal};
use board::Vertex;
use board::inner::number_of;
use legs::leg::Leg;
use search::inner::find;

// The search of a request that has passed the checks, and its path.
pub fn search_route(
    asked: &Leg<'_>,
    g: &mut [u64],
    parents: &mut [Vertex],
    marks: &mut [u8],
    legs: &mut [Vertex],
    path: &mut [Vertex],
) -> Result<Answer, RequestRefusal>
    requires { Room asked.now g.old parents.old marks.old legs.old }
    ensures { Ran (problem_of asked.now) (slices g.old parents.old marks.old legs.old path.old) (slices g.new parents.new marks.new legs.new path.new) (handed_route result) }
{
    let outcome = find(asked, g, parents, marks, legs);
    let expansions = outcome.expansions;
    let tests = outcome.tests;
    if !outcome.found {
        return Ok(Answer::NoPath { expansions, tests });
    }
    let width = asked.board.width;
    let start = number_of(width, asked.ax, asked.ay);
    let goal = number_of(width, asked.bx, asked.by);
    let units = g[goal as usize];
    let count = legs[goal as usize] as usize;
    tell_path(start, goal, units, count, expansions, tests, parents, path)
}
