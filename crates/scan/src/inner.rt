// For the crates above: 13, 23 and 22 of one record.
ghost use Rattle.std.specs.Prelude.{◌≡◌, ◌≤◌, ◌<◌, IfSome};
ghost use Rattle.board.specs.Handed.{passes};
ghost use Rattle.records.specs.Records.{record_bytes, records, in_order};
ghost use Rattle.tracks.specs.Kind.{code_of};
ghost use Rattle.tracks.specs.Faults.{used_by, record_rows};
ghost use Rattle.scan.specs.Inner.{first_unused, stray_place, place_given, progress, after_record, Judged};

use crate::Progress;
use places::inner::{byte_at, is_wrong, place_of};
use records::RECORD;
use tracks::{Kind, RouteRefusal};

// The first byte that a record of this kind does not use.
fn first_unused(kind: Kind) -> usize
    ensures { (result ≡ first_unused kind) × (result ≤ record_bytes) }
{
    match kind {
        Kind::Point => 6,
        Kind::NoPath => 2,
    }
}

// The lowest byte of record i that a record of this kind does not use and that is not 0, if there is one.
fn stray_byte(file: &[u8], i: usize, kind: Kind) -> Option<usize>
    requires { i < records file.now }
    ensures { result ≡ stray_place file.now (used_by (code_of kind)) i }
{
    (first_unused(kind)..RECORD).find(|k| byte_at(file, i, *k) != 0)
}

// The place that record i gives, if it is a point.
fn place_given(file: &[u8], i: usize, kind: Kind) -> Option<usize>
    requires { i < records file.now }
    ensures given { result ≡ place_given file.now i kind }
    ensures small { IfSome result (λ at. at < 65536) }
{
    match kind {
        Kind::Point => Some(place_of(file, i)),
        Kind::NoPath => None,
    }
}

// What is known after a record of this net, a point at this place if it is one.
fn after_record(past: Progress, net: usize, place: Option<usize>) -> Progress
    requires counted { (past.nets < 2305843009213693952) × (past.points < 2305843009213693952) }
    requires small { IfSome place (λ at. at < 65536) }
    ensures { result ≡ after_record past net place }
{
    Progress {
        last: net,
        next: place.map(|at| at + 1),
        nets: past.nets + usize::from(net != past.last),
        points: past.points + usize::from(place.is_some()),
    }
}

// Judges record i by what was read before it.
pub fn judge(file: &[u8], i: usize, past: Progress) -> Result<Progress, RouteRefusal>
    requires i_bound { i < records file.now }
    requires past_value { (past ≡ progress file.now i) × (in_order i (record_rows file.now) ≡ passes) }
    ensures { Judged file.now i result }
{
    let Ok(kind) = Kind::try_from(byte_at(file, i, 0)) else {
        return Err(RouteRefusal::Unknown(i));
    };
    if let Some(byte) = stray_byte(file, i, kind) {
        return Err(RouteRefusal::Unused { record: i, byte });
    }
    let net = usize::from(byte_at(file, i, 1));
    let place = place_given(file, i, kind);
    if is_wrong(past.last, past.next, net, place) {
        return Err(RouteRefusal::Order(i));
    }
    Ok(after_record(past, net, place))
}
