// The calls for the crate above: packed boards read and written, for C.
ghost use Rattle.std.specs.Prelude.{◌≡◌};
ghost use Rattle.board.specs.Board.{board};
ghost use Rattle.board.specs.Handed.{verdict};
ghost use Rattle.packing.specs.Packing.{told_rows};
ghost use Rattle.packing.specs.Calls.{UnpackedForC, PackedForC};

use crate::Packing;
use board::Numbered;
use packed::{read_cells, write_packed};

// What C gets of a call that has no value: the row of its refusal, or 0 and no place.
impl<R: Numbered> From<Result<(), R>> for Packing {
    ghost from_gives = { λ answer packing. packing ≡ told_rows (verdict R.Numbered.row answer) };

    fn from(answer: Result<(), R>) -> Packing {
        match answer {
            Ok(()) => Packing {
                number: 0,
                place: 0,
                second: 0,
            },
            Err(why) => {
                let row = why.row();
                Packing {
                    number: row.number,
                    place: row.place as u64,
                    second: row.second as u64,
                }
            }
        }
    }
}

// Packed bytes into cells.
pub fn unpack_for_c(packed: &[u8], width: usize, height: usize, cells: &mut [u8]) -> Packing
    ensures { UnpackedForC packed.now width height cells.old result cells.new }
{
    read_cells(packed, width, height, cells).into()
}

// Cells into packed bytes.
pub fn pack_for_c(cells: &[u8], width: usize, height: usize, packed: &mut [u8]) -> Packing
    ensures { PackedForC (board cells.now width height) packed.old result packed.new }
{
    write_packed(cells, width, height, packed).into()
}
