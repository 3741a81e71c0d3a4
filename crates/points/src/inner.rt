// A call for the crates above, which say that the file has the records. Each function says what it requires.
ghost use Rattle.std.specs.Prelude.{◌≡◌, ◌+◌, ◌-◌, ◌≤◌, ◌<◌, eqb};
ghost use Rattle.board.specs.Checked.{board_of};
ghost use Rattle.board.specs.Handed.{verdict};
ghost use Rattle.records.specs.Records.{records};
ghost use Rattle.kinds.specs.Inner.{as_net};
ghost use Rattle.bureau.specs.Paths.{is_leg_wrong, leg_place, path_rows};
ghost use Rattle.bureau.specs.Inner.{place_before, record_points, PointsOn, fault_row};

use allowed::inner::is_leg_wrong;
use board::checked::Board;
use bureau::{Fault, Point, Points};
use kinds::Net;
use waypoints::inner::{first_off, is_end_wrong, point_at};

// Whether the leg from the point at place k on is wrong.
fn is_wrong_from(board: &Board<'_>, file: &[u8], points: Points, k: usize) -> bool
    requires k_bound { (k + 1 < points.count) × (points.first + points.count ≤ records file.now) }
    requires points_on { PointsOn (board_of board.now) points.count (record_points file.now points.first) }
    ensures { result ≡ is_leg_wrong (board_of board.now) (record_points file.now points.first k) (record_points file.now points.first (k + 1)) (eqb (k + 2) points.count) }
{
    let from = point_at(file, points.first + k);
    let to = point_at(file, points.first + (k + 1));
    let last = k + 2 == points.count;
    is_leg_wrong(board, from, to, last)
}

// The first place from which a leg is wrong, if there is one.
fn first_wrong_leg(board: &Board<'_>, file: &[u8], points: Points) -> Option<usize>
    requires count_nonzero { (0 < points.count) × (points.first + points.count ≤ records file.now) }
    requires points_on { PointsOn (board_of board.now) points.count (record_points file.now points.first) }
    ensures { result ≡ place_before (leg_place (board_of board.now) points.count (record_points file.now points.first)) (points.count - 1) }
{
    (0..points.count - 1).find(|k| is_wrong_from(board, file, points, *k))
}

// What is wrong with the points, 25 before 26 before 27.
pub fn judge_points(board: &Board<'_>, file: &[u8], points: Points, net: Net) -> Result<(), Fault>
    requires count_nonzero { (0 < points.count) × (points.first + points.count ≤ records file.now) }
    ensures { verdict (fault_row net.number) result ≡ path_rows (board_of board.now) (as_net net) points.count (record_points file.now points.first) }
{
    let start = Point {
        x: net.sx,
        y: net.sy,
    };
    let goal = Point {
        x: net.gx,
        y: net.gy,
    };
    if is_end_wrong(file, points, start, goal) {
        return Err(Fault::End);
    }
    if let Some(place) = first_off(board.width, board.height, file, points) {
        return Err(Fault::Off(place));
    }
    if let Some(place) = first_wrong_leg(board, file, points) {
        return Err(Fault::Leg(place));
    }
    Ok(())
}
