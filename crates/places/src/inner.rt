// Calls for the crates above: a record's bytes and place, and which record may come next.
ghost use Rattle.std.specs.Prelude.{◌≡◌, ◌≤◌, ◌<◌, ℕ, Bool, Some, None, cond};
ghost use Rattle.records.specs.Records.{record_bytes, records, byte};
ghost use Rattle.tracks.specs.Tracks.{is_point, place_of};
ghost use Rattle.tracks.specs.Inner.{wanted, wrong_after};
ghost use Rattle.places.specs.Behind.{wrong_behind};

use records::RECORD;
use tracks::Kind;

// Byte k of record i.
#[tactic(auto, unfolding(records::specs::Records::byte))]
pub fn byte_at(file: &[u8], i: usize, k: usize) -> u8
    requires { (i < records file.now) × (k < record_bytes) }
    ensures { result ≡ byte file.now i k }
{
    file[i * RECORD + k]
}

// Whether record i is a point of a path.
pub fn is_point(file: &[u8], i: usize) -> bool
    requires { i < records file.now }
    ensures { result ≡ is_point file.now i }
{
    byte_at(file, i, 0) == u8::from(Kind::Point)
}

// The place that record i gives, low byte first.
#[tactic(auto, unfolding(tracks::specs::Tracks::place_of))]
pub fn place_of(file: &[u8], i: usize) -> usize
    requires { i < records file.now }
    ensures { (result ≡ place_of file.now i) × (result < 65536) }
{
    let bytes = [byte_at(file, i, 2), byte_at(file, i, 3)];
    usize::from(u16::from_le_bytes(bytes))
}

// Whether a record of this net, a point at this place if it is one, cannot come after a record of the net `last`; `next` is
// the place that a further point of that net has, if it can have one.
pub fn is_wrong(last: usize, next: Option<usize>, net: usize, place: Option<usize>) -> bool
    ensures told { result ≡ wrong_behind last next net place }
    ensures by_numbers { (n p : ℕ) → (point : Bool) → next ≡ wanted n → place ≡ cond point (Some p) None → result ≡ wrong_after last n net p point }
{
    if net == 0 || net < last {
        return true;
    }
    match place {
        None => net == last,
        Some(at) if net == last => next != Some(at),
        Some(at) => at != 0,
    }
}
