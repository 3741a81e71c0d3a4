// The call for the crate above: the count of blocked cells, for C.
ghost use Rattle.std.specs.Prelude.{◌≡◌};
ghost use Rattle.packed.specs.Answers.{handed_count, count_row};
ghost use Rattle.counting.specs.Counting.{told_count};

use crate::Counted;
use board::Numbered;
use packed::{PackedRefusal, count_blocked};

// What C gets of a count.
impl From<Result<usize, PackedRefusal>> for Counted {
    ghost from_gives = { λ answer counted. counted ≡ told_count (handed_count answer) };

    fn from(answer: Result<usize, PackedRefusal>) -> Counted {
        match answer {
            Ok(blocked) => Counted {
                number: 0,
                place: 0,
                second: 0,
                blocked: blocked as u64,
            },
            Err(why) => {
                let row = why.row();
                Counted {
                    number: row.number,
                    place: row.place as u64,
                    second: row.second as u64,
                    blocked: 0,
                }
            }
        }
    }
}

// How many cells of packed bytes are blocked.
pub fn count_packed_for_c(packed: &[u8], width: usize, height: usize) -> Counted
    ensures { result ≡ told_count (count_row packed.now width height) }
{
    count_blocked(packed, width, height).into()
}
