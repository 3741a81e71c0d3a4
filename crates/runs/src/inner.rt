// Calls for the crates above: each says what it requires.
ghost use Rattle.std.specs.Prelude.{◌≡◌, true, ◌≤◌, ◌<◌};
ghost use Rattle.board.specs.Handed.{passes};
ghost use Rattle.records.specs.Records.{records};
ghost use Rattle.tracks.specs.Tracks.{is_point, place_of};
ghost use Rattle.tracks.specs.Faults.{file_rows};
ghost use Rattle.bureau.specs.Inner.{place_before, first_record, LastOf, Run, PointsGiven};

use bureau::Points;
use places::inner::{is_point, place_of};
use records::RECORD;
use records::inner::byte_of;

// The first record of the file with this net number, if there is one.
pub fn first_record(file: &[u8], number: usize) -> Option<usize>
    ensures { result ≡ place_before (first_record file.now number) (records file.now) }
{
    (0..file.len() / RECORD).find(|i| byte_of(file, *i, 1) == number)
}

// The last record of the net whose first record this is.
fn last_record(file: &[u8], first: usize) -> usize
    requires file_value { file_rows file.now ≡ passes }
    requires first_bound { (first < records file.now) × (is_point file.now first ≡ true) × (place_of file.now first ≡ 0) }
    ensures { LastOf file.now first result }
{
    let number = byte_of(file, first, 1);
    let count = file.len() / RECORD;
    let next = (first..count).find(|i| byte_of(file, *i, 1) != number);
    next.unwrap_or(count) - 1
}

// How many points the net has whose first record this is: the last one's place tells.
pub fn count_points(file: &[u8], first: usize) -> usize
    requires file_value { file_rows file.now ≡ passes }
    requires first_bound { (first < records file.now) × (is_point file.now first ≡ true) × (place_of file.now first ≡ 0) }
    ensures { Run file.now first result × (result ≤ 65536) }
{
    let last = last_record(file, first);
    place_of(file, last) + 1
}

// Where the points of the net with this number stand, if the file gives it any.
pub fn find_points(file: &[u8], number: usize) -> Option<Points>
    requires { file_rows file.now ≡ passes }
    ensures { PointsGiven file.now number result }
{
    let first = first_record(file, number)?;
    if !is_point(file, first) {
        return None;
    }
    let count = count_points(file, first);
    Some(Points { first, count })
}
