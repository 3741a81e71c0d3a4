// A leg without a board, by its differences or by its vertices.
#![tactic(auto)]

ghost use Rattle.std.specs.Prelude.{◌≡◌, ◌≤◌, nat_abs, IfOk};
ghost use Rattle.board.specs.Limits.{largest_side};
ghost use Rattle.board.specs.Handed.{refusal_row, verdict};
ghost use Rattle.spans.specs.Legs.{step, difference_rows, vertex_rows};

use board::{Refusal, SIDE};

// A leg from its first vertex to its second by its differences, each at most the largest side in size.
#[derive(Clone, Copy)]
pub struct Span {
    pub dx: i32,
    pub dy: i32,
    pub ghost dx_small: { nat_abs dx ≤ largest_side },
    pub ghost dy_small: { nat_abs dy ≤ largest_side },
}

// The difference from one coordinate to another, both on the largest board.
fn difference(a: usize, b: usize) -> i32
    requires { (a ≤ largest_side) × (b ≤ largest_side) }
    ensures value { result ≡ step a b }
    ensures small { nat_abs result ≤ largest_side }
{
    b as i32 - a as i32
}

impl Span {
    // A leg by its differences; refusals 4 and 5.
    #[tactic(auto, unfolding(crate::specs::Legs::difference_rows))]
    pub fn of(dx: i32, dy: i32) -> Result<Span, Refusal>
        ensures rows { verdict refusal_row result ≡ difference_rows dx dy }
        ensures value { IfOk result (λ span. (span.dx ≡ dx) × (span.dy ≡ dy)) }
    {
        if SIDE < dx.unsigned_abs() as usize {
            return Err(Refusal::First);
        }
        if SIDE < dy.unsigned_abs() as usize {
            return Err(Refusal::Second);
        }
        Ok(Span { dx, dy })
    }

    // A leg by its vertices; refusals 4 and 5.
    #[tactic(auto, unfolding(crate::specs::Legs::vertex_rows))]
    pub fn between(ax: usize, ay: usize, bx: usize, by: usize) -> Result<Span, Refusal>
        ensures rows { verdict refusal_row result ≡ vertex_rows ax ay bx by }
        ensures value { IfOk result (λ span. (span.dx ≡ step ax bx) × (span.dy ≡ step ay by)) }
    {
        if SIDE < ax || SIDE < ay {
            return Err(Refusal::First);
        }
        if SIDE < bx || SIDE < by {
            return Err(Refusal::Second);
        }
        Ok(Span {
            dx: difference(ax, bx),
            dy: difference(ay, by),
        })
    }
}
