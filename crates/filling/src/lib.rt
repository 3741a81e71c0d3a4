// The checks of packed bytes: their number, and that each row is filled up to a whole byte with zero bits.
#![tactic(auto)]

ghost use Rattle.std.specs.Prelude.{◌≡◌};
ghost use Rattle.board.specs.Handed.{verdict};
ghost use Rattle.bits.specs.Inner.{Sized};
ghost use Rattle.filling.specs.Filling.{filling_place, packed_rows, packed_row};

use bits::inner::row_bytes;
use board::inner::side_fits;
use board::{Numbered, Row};

// Why packed bytes are refused: 1, 29, or 30 with the index of the first byte that has a filling bit set.
#[derive(Clone, Copy, PartialEq, Eq)]
pub enum PackedRefusal {
    Side,
    Length,
    Filling(usize),
}

impl Numbered for PackedRefusal {
    ghost row = { packed_row };

    fn row(self) -> Row {
        match self {
            PackedRefusal::Side => Row::of(1),
            PackedRefusal::Length => Row::of(29),
            PackedRefusal::Filling(at) => Row::at(30, at),
        }
    }
}

// The index of the first byte that has a filling bit set, if there is one: only a row's last byte has filling.
fn first_filling(packed: &[u8], width: usize, height: usize) -> Option<usize>
    requires { Sized packed.now width height }
    ensures { result ≡ filling_place packed.now width }
{
    let row = row_bytes(width);
    let fill = row * 8 - width;
    for end in 1..height + 1 {
        let last = end * row - 1;
        if packed[last] % (1u8 << fill) != 0 {
            return Some(last);
        }
    }
    None
}

// Refusals 1, 29 and 30: sides, number of bytes, filling bits.
#[tactic(auto, unfolding(crate::specs::Filling::packed_rows))]
pub fn check_packed(packed: &[u8], width: usize, height: usize) -> Result<(), PackedRefusal>
    ensures { verdict packed_row result ≡ packed_rows packed.now width height }
{
    if !side_fits(width) {
        return Err(PackedRefusal::Side);
    }
    if !side_fits(height) {
        return Err(PackedRefusal::Side);
    }
    if packed.len() != row_bytes(width) * height {
        return Err(PackedRefusal::Length);
    }
    match first_filling(packed, width, height) {
        Some(at) => Err(PackedRefusal::Filling(at)),
        None => Ok(()),
    }
}
