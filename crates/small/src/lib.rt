// The small table of lengths: a constant, each entry proved.
#![tactic(auto)]

ghost use Rattle.table.specs.Lengths.{small_side, sums_of, Known};

use crate::units::SMALL_UNITS;
use table::SMALL;

mod units;

// The small table, to be lent to the calls of `table`.
pub fn small_lengths() -> [u32; SMALL]
    ensures { Known (sums_of small_side) result }
{
    SMALL_UNITS
}
