// Packed boards from the camera: one bit per cell, high bit first, each row filled up to a whole byte with zero bits.
#![tactic(auto)]

ghost use Rattle.std.specs.Prelude.{◌≡◌};
ghost use Rattle.board.specs.Board.{board};
ghost use Rattle.packed.specs.Answers.{CellsRead, read_refusal_row, said_read};
ghost use Rattle.packed.specs.Answers.{PackedWritten, write_refusal_row, said_written, handed_count, count_row};
ghost use Rattle.packed.specs.declared.ReadRefusal.TheVariants as reading;
ghost use Rattle.packed.specs.declared.WriteRefusal.TheVariants as writing;

use bits::inner::{count_bits, row_bytes};
use board::{Numbered, Refusal, Row, check_board};
use bytes::{pack, unpack};
pub use filling::PackedRefusal;
use filling::check_packed;

mod bytes;

// Why packed bytes are not read: 1, 29 or 30, or 19 for a slice that is too short for the cells.
#[derive(Clone, Copy, PartialEq, Eq)]
pub enum ReadRefusal {
    Packed(PackedRefusal),
    Short,
}

impl Numbered for ReadRefusal {
    ghost row = { read_refusal_row };

    fn row(self) -> Row {
        match self {
            ReadRefusal::Packed(why) => why.row(),
            ReadRefusal::Short => Row::of(19),
        }
    }
}

impl From<PackedRefusal> for ReadRefusal {
    ghost from_gives = { λ why refusal. refusal ≡ reading.Packed why };

    fn from(why: PackedRefusal) -> ReadRefusal {
        ReadRefusal::Packed(why)
    }
}

// Why packed bytes are not written: 1 to 3, or 21 for a slice that is too short for them.
#[derive(Clone, Copy, PartialEq, Eq)]
pub enum WriteRefusal {
    Board(Refusal),
    Short,
}

impl Numbered for WriteRefusal {
    ghost row = { write_refusal_row };

    fn row(self) -> Row {
        match self {
            WriteRefusal::Board(why) => why.row(),
            WriteRefusal::Short => Row::of(21),
        }
    }
}

impl From<Refusal> for WriteRefusal {
    ghost from_gives = { λ why refusal. refusal ≡ writing.Board why };

    fn from(why: Refusal) -> WriteRefusal {
        WriteRefusal::Board(why)
    }
}

// Writes the cells of packed bytes into the lent slice, a byte each.
pub fn read_cells(
    packed: &[u8],
    width: usize,
    height: usize,
    cells: &mut [u8],
) -> Result<(), ReadRefusal>
    ensures { CellsRead packed.now width height cells.old (said_read result) cells.new }
{
    check_packed(packed, width, height)?;
    if cells.len() < width * height {
        return Err(ReadRefusal::Short);
    }
    unpack(packed, width, height, cells);
    Ok(())
}

// Writes the packed bytes of cells into the lent slice.
pub fn write_packed(
    cells: &[u8],
    width: usize,
    height: usize,
    packed: &mut [u8],
) -> Result<(), WriteRefusal>
    ensures { PackedWritten (board cells.now width height) packed.old (said_written result)
        packed.new }
{
    check_board(cells, width, height)?;
    if packed.len() < row_bytes(width) * height {
        return Err(WriteRefusal::Short);
    }
    pack(cells, width, height, packed);
    Ok(())
}

// Counts the blocked cells of packed bytes without unpacking them.
pub fn count_blocked(packed: &[u8], width: usize, height: usize) -> Result<usize, PackedRefusal>
    ensures { handed_count result ≡ count_row packed.now width height }
{
    check_packed(packed, width, height)?;
    Ok(count_bits(packed))
}
