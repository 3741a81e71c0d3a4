// Calls for the crates above: each says what it requires.
ghost use Rattle.std.specs.Prelude.{◌≡◌, ◌<◌};
ghost use Rattle.records.specs.Records.{record_bytes, records, byte};

use crate::RECORD;

// Byte k of record i.
#[tactic(auto, unfolding(crate::specs::Records::byte))]
pub fn byte_of(file: &[u8], i: usize, k: usize) -> usize
    requires { (i < records file.now) × (k < record_bytes) }
    ensures { result ≡ byte file.now i k }
{
    usize::from(file[i * RECORD + k])
}
