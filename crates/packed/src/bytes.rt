// A whole board, cell by cell or byte by byte, whose sides and lengths have been checked.
ghost use Rattle.std.specs.Prelude.{◌≡◌, ◌++◌, ◌*◌, ◌≤◌, length, drop};
ghost use Rattle.bits.specs.Packed.{packed_bytes, cells_of, packed_of};
ghost use Rattle.bits.specs.Inner.{Sides, Sized, Bits};

use bits::inner::{bit_of, byte_from, row_bytes};

// The cells, a byte each.
pub fn unpack(packed: &[u8], width: usize, height: usize, cells: &mut [u8])
    requires sized { Sized packed.now width height }
    requires height_in_bounds { width * height ≤ length cells.old }
    ensures { cells.new
        ≡ cells_of packed.now width height ++ drop (width * height) cells.old }
{
    for (k, cell) in cells[..width * height].iter_mut().enumerate() {
        *cell = bit_of(packed, width, k % width, k / width);
    }
}

// The packed bytes.
pub fn pack(cells: &[u8], width: usize, height: usize, packed: &mut [u8])
    requires bits { Bits cells.now }
    requires sides { Sides width height × (length cells.now ≡ width * height) }
    requires height_in_bounds { packed_bytes width height ≤ length packed.old }
    ensures { packed.new
        ≡ packed_of cells.now width height ++ drop (packed_bytes width height) packed.old }
{
    let row = row_bytes(width);
    for (i, byte) in packed[..row * height].iter_mut().enumerate() {
        *byte = byte_from(cells, width, i % row * 8, i / row);
    }
}
