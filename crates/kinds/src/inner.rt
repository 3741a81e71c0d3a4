// What one record says, for the crates above, which say that there is such a record.
ghost use Rattle.std.specs.Prelude.{◌≡◌, ◌<◌};
ghost use Rattle.records.specs.Records.{record_bytes, records, is_in, is_stray_byte};
ghost use Rattle.kinds.specs.Job.{is_net, used_by, coordinate};
ghost use Rattle.kinds.specs.Kind.{code_of};
ghost use Rattle.kinds.specs.Inner.{stray_place, rectangle_at, net_said, record_at};

use crate::{Kind, Net, Record, RecordFault, Rectangle};
use records::RECORD;
use records::inner::byte_of;

// The coordinate that byte k of record i gives.
#[tactic(auto, unfolding(crate::specs::Job::coordinate))]
fn coordinate_of(job: &[u8], i: usize, k: usize) -> usize
    requires { (i < records job.now) × (k < record_bytes) }
    ensures { result ≡ coordinate job.now i k }
{
    byte_of(job, i, k)
}

// Whether record i is a net's.
pub fn is_net(job: &[u8], i: usize) -> bool
    requires { i < records job.now }
    ensures { result ≡ is_net job.now i }
{
    matches!(Kind::try_from(byte_of(job, i, 0)), Ok(Kind::Net))
}

// Whether a record of that kind uses byte k.
#[tactic(auto, unfolding(crate::specs::Job::used_by))]
fn is_used(kind: Kind, k: usize) -> bool
    ensures { result ≡ is_in k (used_by (code_of kind)) }
{
    match kind {
        Kind::Board => matches!(k, 0 | 2 | 3),
        Kind::Keepout => matches!(k, 0 | 2..=5),
        Kind::Net => matches!(k, 0..=5),
    }
}

// Whether byte k of record i is not used by that kind, and not 0.
fn is_stray(job: &[u8], i: usize, kind: Kind, k: usize) -> bool
    requires { (i < records job.now) × (k < record_bytes) }
    ensures { result ≡ is_stray_byte job.now (used_by (code_of kind)) i k }
{
    !is_used(kind, k) && byte_of(job, i, k) != 0
}

// The lowest byte of record i that is not used and not 0, if there is one.
fn stray_byte(job: &[u8], i: usize, kind: Kind) -> Option<usize>
    requires { i < records job.now }
    ensures { result ≡ stray_place job.now (used_by (code_of kind)) i }
{
    (0..RECORD).find(|k| is_stray(job, i, kind, *k))
}

// The cells of a keepout's record.
fn rectangle_at(job: &[u8], i: usize) -> Rectangle
    requires { i < records job.now }
    ensures { result ≡ rectangle_at job.now i }
{
    Rectangle {
        left: coordinate_of(job, i, 2),
        top: coordinate_of(job, i, 3),
        right: coordinate_of(job, i, 4),
        bottom: coordinate_of(job, i, 5),
    }
}

// The numbers of a net's record.
fn net_at(job: &[u8], i: usize) -> Net
    requires { i < records job.now }
    ensures { result ≡ net_said job.now i }
{
    Net {
        number: byte_of(job, i, 1),
        sx: coordinate_of(job, i, 2),
        sy: coordinate_of(job, i, 3),
        gx: coordinate_of(job, i, 4),
        gy: coordinate_of(job, i, 5),
    }
}

// What record i says; an unknown type is told before an unused byte.
pub fn record_at(job: &[u8], i: usize) -> Result<Record, RecordFault>
    requires { i < records job.now }
    ensures { result ≡ record_at job.now i }
{
    let kind = Kind::try_from(byte_of(job, i, 0))?;
    if let Some(k) = stray_byte(job, i, kind) {
        return Err(RecordFault::Unused(k));
    }
    Ok(match kind {
        Kind::Board => Record::Board {
            width: coordinate_of(job, i, 2),
            height: coordinate_of(job, i, 3),
        },
        Kind::Keepout => Record::Keepout(rectangle_at(job, i)),
        Kind::Net => Record::Net(net_at(job, i)),
    })
}
