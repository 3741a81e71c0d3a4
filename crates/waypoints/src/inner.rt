// Calls for the crates above, which say that the file has the records.
ghost use Rattle.std.specs.Prelude.{◌≡◌, List, [], ℕ, ◌+◌, ◌≤◌, ◌<◌};
ghost use Rattle.board.specs.Board.{board};
ghost use Rattle.records.specs.Records.{records};
ghost use Rattle.tracks.specs.Tracks.{point_of};
ghost use Rattle.bureau.specs.Paths.{is_off, is_end_wrong, off_place};
ghost use Rattle.bureau.specs.Inner.{as_point, place_before, record_points};

use board::inner::is_vertex;
use bureau::{Point, Points};
use records::inner::byte_of;

// The point of record i.
pub fn point_at(file: &[u8], i: usize) -> Point
    requires { i < records file.now }
    ensures { as_point result ≡ point_of file.now i }
{
    Point {
        x: byte_of(file, i, 4),
        y: byte_of(file, i, 5),
    }
}

// 25: whether the first point is not the start, or the last not the goal.
pub fn is_end_wrong(file: &[u8], points: Points, start: Point, goal: Point) -> bool
    requires { (0 < points.count) × (points.first + points.count ≤ records file.now) }
    ensures { result ≡ is_end_wrong (as_point start) (as_point goal) points.count (record_points file.now points.first) }
{
    let begins = point_at(file, points.first) == start;
    let ends = point_at(file, points.first + (points.count - 1)) == goal;
    !begins | !ends
}

// Whether the point of record i is off a board with these sides; its cells don't matter.
fn is_off(width: usize, height: usize, file: &[u8], i: usize) -> bool
    requires { i < records file.now }
    ensures { result ≡ is_off (board [] width height) (point_of file.now i) }
{
    let point = point_at(file, i);
    !is_vertex(width, height, point.x, point.y)
}

// 26: the first place whose point is off a board with these sides, whatever its cells, if there is one.
pub fn first_off(width: usize, height: usize, file: &[u8], points: Points) -> Option<usize>
    requires { points.first + points.count ≤ records file.now }
    ensures { (cells : List ℕ) → result ≡ place_before (off_place (board cells width height) points.count (record_points file.now points.first)) points.count }
{
    (0..points.count).find(|k| is_off(width, height, file, points.first + *k))
}
