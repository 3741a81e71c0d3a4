// The middle and the large table of lengths: constants, each entry proved.
#![tactic(auto)]

ghost use Rattle.table.specs.Lengths.{squares, middle_side, sums_of, Known};

use crate::units::{LARGE_UNITS, MIDDLE_UNITS};
use table::{LARGE, MIDDLE};

mod units;

// The middle table, to be lent to the calls of `table`.
pub fn middle_lengths() -> [u32; MIDDLE]
    ensures { Known (sums_of middle_side) result }
{
    MIDDLE_UNITS
}

// The large table.
pub fn large_lengths() -> [u32; LARGE]
    ensures { Known squares result }
{
    LARGE_UNITS
}
