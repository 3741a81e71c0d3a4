// A call for the crates above, which know that the net can be routed: it says what it requires.
ghost use Rattle.std.specs.Prelude.{◌≡◌, length, ◌≤◌};
ghost use Rattle.board.specs.Board.{board};
ghost use Rattle.board.specs.Handed.{passes, leg_rows};
ghost use Rattle.answer.specs.Answers.{handed_route};
ghost use Rattle.netroute.specs.Limits.{vertex_room};
ghost use Rattle.netroute.specs.Inner.{Found};

use crate::VERTICES;
use answer::{Answer, RequestRefusal};
use board::Vertex;
use router::route;

// Routes a net of an accepted job; its path stands at the front of the lent slice.
pub fn search_net(
    cells: &[u8],
    width: usize,
    height: usize,
    sx: usize,
    sy: usize,
    gx: usize,
    gy: usize,
    path: &mut [Vertex],
) -> Result<Answer, RequestRefusal>
    requires gy_value { leg_rows (board cells.now width height) sx sy gx gy ≡ passes }
    requires vertex_room_in_bounds { vertex_room ≤ length path.old }
    ensures { Found (board cells.now width height) sx sy gx gy (handed_route result) path.new }
{
    let mut g = [0u64; VERTICES];
    let mut parents = [0 as Vertex; VERTICES];
    let mut marks = [0u8; VERTICES];
    let mut legs = [0 as Vertex; VERTICES];
    route(
        cells,
        width,
        height,
        sx,
        sy,
        gx,
        gy,
        &mut g,
        &mut parents,
        &mut marks,
        &mut legs,
        path,
    )
}
