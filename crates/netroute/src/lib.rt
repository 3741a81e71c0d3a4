// The route of a job's net, in buffers of the route program's own.
#![tactic(auto)]

ghost use Rattle.std.specs.Prelude.{◌≡◌};
ghost use Rattle.netroute.specs.Limits.{vertex_room};

pub mod inner;

// The program's own limit: its buffers are for boards up to this side.
pub const WIDEST: usize = 63;

// The vertices of such a board.
pub const VERTICES: usize = (WIDEST + 1) * (WIDEST + 1);

// The constant is the definition's number.
fn vertex_room() -> usize
    ensures { result ≡ vertex_room }
{
    VERTICES
}
