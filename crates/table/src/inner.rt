// Calls for the crates above, which lend a table that has the lengths they ask for: each says what it requires.
ghost use Rattle.std.specs.Prelude.{◌≡◌, ◌*◌, ◌^◌, ◌≤◌, ◌<◌, nat_abs};
ghost use Rattle.board.specs.Limits.{largest_side};
ghost use Rattle.spans.specs.Legs.{step};
ghost use Rattle.length.specs.Units.{square, units_of, units};
ghost use Rattle.table.specs.Lengths.{squares, Known};

use crate::LARGE;
use board::SIDE;
use length::Length;
use length::inner::units_of_square;

// The largest dx² + dy² on a board.
const LARGEST: usize = 2 * SIDE * SIDE;

// A leg beyond the table is guessed from legs that are so many times shorter.
const PARTS: usize = 16;

// A number below this has a square that fits in a word.
const SHORT: u64 = 1 << 32;

// The square of the difference from a to b.
fn squared(a: usize, b: usize) -> usize
    requires { (a ≤ largest_side) × (b ≤ largest_side) }
    ensures { result ≡ nat_abs (step a b) * nat_abs (step a b) }
{
    let d = b as i64 - a as i64;
    (d * d) as usize
}

// The units of a leg whose dx² + dy² has a place in the table.
fn entry(s: usize, table: &[u32]) -> u64
    requires s_lt_squares { s < squares }
    requires known { Known s table.now }
    ensures { result ≡ units_of s }
{
    table[s] as u64
}

// A guess at the root of n, made better: halfway between the guess and n divided by it.
fn nearer(n: u64, guess: u64) -> u64
    requires { (n < 2 ^ 60) × (0 < guess) × (guess ≤ 2 ^ 61) }
    ensures { result < 2 ^ 61 }
{
    (guess + n / guess) / 2
}

// A guess at the root of n, the s × 2^40 of a leg beyond the table: begun from two legs of a 16th its length, made better twice.
fn guess_beyond(s: usize, n: u64, table: &[u32]) -> u64
    requires s_bound { (0 < s) × (s ≤ 2 * (largest_side * largest_side)) × (n < 2 ^ 60) }
    requires known { Known s table.now }
    ensures { result < 2 ^ 32 }
{
    let part = s / (PARTS * PARTS);
    let begun = (entry(part, table) + entry(part + 1, table)) * (PARTS as u64 / 2);
    let once = nearer(n, begun + 1);
    nearer(n, once + 1) % SHORT
}

// The units of a leg beyond the table. The guess is tested for being the root; where it is not, the root is worked out.
fn units_beyond(s: usize, table: &[u32]) -> u64
    requires s_bound { (0 < s) × (s ≤ 2 * (largest_side * largest_side)) }
    requires known { Known s table.now }
    ensures { result ≡ units_of s }
{
    let n = s as u64 * (Length::UNITS_PER_CELL * Length::UNITS_PER_CELL);
    let u = guess_beyond(s, n, table);
    let square = u * u;
    if (square <= n) & (n <= square + 2 * u) {
        return u;
    }
    units_of_square(s as u64)
}

// The units of a leg, by its dx² + dy².
fn units_by(s: usize, table: &[u32]) -> u64
    requires s_bound { s ≤ 2 * (largest_side * largest_side) }
    requires known { Known s table.now }
    ensures { result ≡ units_of s }
{
    // Where every leg of a board has a place, the compiler leaves this out.
    if (LARGE <= LARGEST) & (LARGE <= s) {
        return units_beyond(s, table);
    }
    entry(s, table)
}

// The units of the leg from (ax, ay) to (bx, by).
pub fn units_between(ax: usize, ay: usize, bx: usize, by: usize, table: &[u32]) -> u64
    requires ax_le_largest_side { (ax ≤ largest_side) × (ay ≤ largest_side) × (bx ≤ largest_side) × (by ≤ largest_side) }
    requires known { Known (square (step ax bx) (step ay by)) table.now }
    ensures { result ≡ units (step ax bx) (step ay by) }
{
    units_by(squared(ax, bx) + squared(ay, by), table)
}
