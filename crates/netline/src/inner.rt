// A call for the crate above, which has seen that the line has room: its bytes, put piece by piece.
ghost use Rattle.std.specs.Prelude.{◌∷◌};
ghost use Rattle.lines.specs.Lines.{vertex_field, vertex_fields, spaced, net_line};
ghost use Rattle.lines.specs.Inner.{Put, Room, path_end};

use board::Vertex;
use fitting::inner::place_of;
use putting::inner::{put_both, put_newline, put_text};

// A vertex as x,y, after a space.
fn put_vertex(out: &mut [u8], at: usize, width: usize, v: Vertex) -> usize
    requires { Room (32 ∷ vertex_field width v) out.old at }
    ensures { Put (32 ∷ vertex_field width v) out.old at result out.new }
{
    let place = place_of(width, v as usize);
    put_both(out, at, b" ", place.x as u64, b",", place.y as u64)
}

// The vertices of a path.
fn put_path(out: &mut [u8], at: usize, width: usize, path: &[Vertex]) -> usize
    requires { Room (spaced (vertex_fields width path.now)) out.old at }
    ensures { Put (spaced (vertex_fields width path.now)) out.old at result out.new }
{
    let mut next = at;
    for v in path {
        next = put_vertex(out, next, width, *v);
    }
    next
}

// The end of the line of a net with a path, from the word at on.
fn put_end(out: &mut [u8], at: usize, width: usize, path: &[Vertex]) -> usize
    requires { Room (path_end width path.now) out.old at }
    ensures { Put (path_end width path.now) out.old at result out.new }
{
    let start = put_text(out, at, b" at");
    let end = put_path(out, start, width, path);
    put_newline(out, end)
}

// A net with a path.
pub fn put_net(
    out: &mut [u8],
    number: u64,
    units: u64,
    expansions: u64,
    tests: u64,
    width: usize,
    path: &[Vertex],
) -> usize
    requires { Room (net_line number units expansions tests width path.now) out.old 0 }
    ensures { Put (net_line number units expansions tests width path.now) out.old 0 result out.new }
{
    let counts = put_both(out, 0, b"net ", number, b" path ", units);
    let end = put_both(out, counts, b" expanded ", expansions, b" tests ", tests);
    put_end(out, end, width, path)
}
