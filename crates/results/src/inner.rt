// A call for the crates above, which says what it requires.
ghost use Rattle.std.specs.Prelude.{◌≡◌, ◌+◌, ◌≤◌, ◌<◌, length};
ghost use Rattle.board.specs.Handed.{passes};
ghost use Rattle.board.specs.Limits.{largest_side};
ghost use Rattle.records.specs.Records.{records};
ghost use Rattle.tracks.specs.Tracks.{routes_in};
ghost use Rattle.tracks.specs.Faults.{file_rows};
ghost use Rattle.bureau.specs.Paths.{point_at, leg_units, units_along};
ghost use Rattle.bureau.specs.Nets.{points_for};
ghost use Rattle.bureau.specs.Inner.{as_point, record_points, PointsSmall, Measured};

use bureau::{Point, Points};
use length::Length;
use runs::inner::find_points;
use waypoints::inner::point_at;

// The length of the leg from one point to another, in units.
fn leg_units(from: Point, to: Point) -> u64
    requires from_small { (from.x ≤ largest_side) × (from.y ≤ largest_side) }
    requires to_small { (to.x ≤ largest_side) × (to.y ≤ largest_side) }
    ensures { (result ≡ leg_units (as_point from) (as_point to)) × (result < 134217728) }
{
    let length = Length::between(from.x, from.y, to.x, to.y).unwrap();
    length.units
}

// The sum over the legs between points that some board has.
fn units_along(file: &[u8], points: Points) -> u64
    requires count_nonzero { (0 < points.count) × (points.count ≤ 65536) × (points.first + points.count ≤ records file.now) }
    requires points_small { PointsSmall points.count (record_points file.now points.first) }
    ensures { result ≡ units_along points.count (record_points file.now points.first) }
{
    let mut sum = 0u64;
    for k in 0..points.count - 1 {
        let from = point_at(file, points.first + k);
        let to = point_at(file, points.first + (k + 1));
        sum += leg_units(from, to);
    }
    sum
}

// Writes the length and the legs of a net that is right: 0 where no path is claimed.
pub fn write_net(file: &[u8], number: usize, index: usize, units: &mut [u64], counts: &mut [u32])
    requires file_value { file_rows file.now ≡ passes }
    requires points_small { PointsSmall (length (points_for (routes_in file.now) number)) (point_at (points_for (routes_in file.now) number)) }
    requires index_in_bounds { (index < length units.old) × (index < length counts.old) }
    ensures { Measured (points_for (routes_in file.now) number) index units.old counts.old units.new counts.new }
{
    match find_points(file, number) {
        None => {
            units[index] = 0;
            counts[index] = 0;
        }
        Some(points) => {
            units[index] = units_along(file, points);
            counts[index] = (points.count - 1) as u32;
        }
    }
}
