// Calls for the crates above, which have checked the sides and the lengths: each says what it requires.
ghost use Rattle.std.specs.Prelude.{◌≡◌, ◌*◌, ◌+◌, ◌≤◌, ◌<◌, length};
ghost use Rattle.board.specs.Limits.{largest_side};
ghost use Rattle.bits.specs.Packed.{joined, row_bytes, byte_of, bit_of, bit_from};
ghost use Rattle.bits.specs.Inner.{Bits, set_bits};

// The bytes of a row.
pub fn row_bytes(width: usize) -> usize
    ensures { result ≡ row_bytes width }
{
    width / 8 + (width % 8 + 7) / 8
}

// How many bits are 1, byte by byte.
pub fn count_bits(packed: &[u8]) -> usize
    requires { length packed.now ≤ largest_side * largest_side }
    ensures { result ≡ set_bits packed.now }
{
    packed.iter().map(|byte| byte.count_ones() as usize).sum()
}

// The bit of cell (x, y).
#[tactic(auto, unfolding(crate::specs::Packed::bit_of, crate::specs::Packed::bit_at))]
pub fn bit_of(packed: &[u8], width: usize, x: usize, y: usize) -> u8
    requires { (x ≤ largest_side) × (byte_of width x y < length packed.now) }
    ensures { result ≡ bit_of packed.now width x y }
{
    let row = row_bytes(width);
    (packed[y * row + x / 8] >> (7 - x % 8)) % 2
}

// The bit for column x of row y: the cell's byte, or 0 in the filling.
#[tactic(auto, unfolding(crate::specs::Packed::bit_from))]
fn bit_from(cells: &[u8], width: usize, x: usize, y: usize) -> u8
    requires { y * width + width ≤ length cells.now }
    ensures { result ≡ bit_from cells.now width x y }
{
    if x < width { cells[y * width + x] } else { 0 }
}

// The byte with the cells from column x of row y on, high bit first.
pub fn byte_from(cells: &[u8], width: usize, x: usize, y: usize) -> u8
    requires bits { Bits cells.now }
    requires width_in_bounds { (y * width + width ≤ length cells.now) × (x ≤ 8 * (largest_side * largest_side)) }
    ensures { result ≡ joined 8 (λ place. bit_from cells.now width (x + place) y) }
{
    let mut byte = 0;
    for place in 0..8 {
        byte = byte * 2 + bit_from(cells, width, x + place, y);
    }
    byte
}
