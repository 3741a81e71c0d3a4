// Judges what would be written, net by net, before anything is.
ghost use Rattle.std.specs.Prelude.{◌≡◌, List, ℕ, get_or};
ghost use Rattle.tracks.specs.Layout.{slices};
ghost use Rattle.tracks.specs.Inner.{records_for};
ghost use Rattle.tally.specs.Inner.{MeasuredAs};

use crate::Size;
use tracks::{PLACES, WriteRefusal};

// How many records a net with so many points has.
pub fn records_for(count: usize) -> usize
    ensures { result ≡ records_for count }
{
    if count == 0 { 1 } else { count }
}

// How many points net k has; none is counted where there is no entry.
fn count_of(counts: &[usize], k: usize) -> usize
    ensures { result ≡ get_or counts.now k 0 }
{
    counts.get(k).copied().unwrap_or(0)
}

// How many records and points there are, or the first record that is wrong, whatever the points' x and y are.
pub fn measure(nets: &[u8], counts: &[usize]) -> Result<Size, WriteRefusal>
    ensures { (xs ys : List ℕ) → MeasuredAs (slices nets.now counts.now xs ys) result }
{
    let mut records = 0;
    let mut points = 0;
    let mut last = 0;
    for (k, net) in nets.iter().enumerate() {
        let count = count_of(counts, k);
        if *net <= last {
            return Err(WriteRefusal::Order(records));
        }
        if PLACES < count {
            return Err(WriteRefusal::Order(records + PLACES));
        }
        records += records_for(count);
        points += count;
        last = *net;
    }
    Ok(Size { records, points })
}
