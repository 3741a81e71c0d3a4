// The route call: the checks, then the search and its answer.
#![tactic(auto)]

ghost use Rattle.board.specs.Board.{board};
ghost use Rattle.answer.specs.Answers.{handed_route, slices, Routed};

pub use answer::{Answer, RequestRefusal};
use board::Vertex;
use legs::leg::Leg;
use running::inner::search_route;

// The route from (sx, sy) to (gx, gy). The lent slices hold the search's g, parents, marks and legs afterwards, and the path.
pub fn route(
    cells: &[u8],
    width: usize,
    height: usize,
    sx: usize,
    sy: usize,
    gx: usize,
    gy: usize,
    g: &mut [u64],
    parents: &mut [Vertex],
    marks: &mut [u8],
    legs: &mut [Vertex],
    path: &mut [Vertex],
) -> Result<Answer, RequestRefusal>
    ensures { Routed (board cells.now width height) sx sy gx gy (slices g.old parents.old marks.old legs.old path.old) (slices g.new parents.new marks.new legs.new path.new) (handed_route result) }
{
    let asked = Leg::checked(cells, width, height, sx, sy, gx, gy)?;
    let vertices = (width + 1) * (height + 1);
    if (g.len() < vertices)
        | ((parents.len() < vertices) | ((marks.len() < vertices) | (legs.len() < vertices)))
    {
        return Err(RequestRefusal::Work);
    }
    search_route(&asked, g, parents, marks, legs, path)
}
