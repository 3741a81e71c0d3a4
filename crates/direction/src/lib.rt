// The direction of a leg: its two differences over its length.
#![tactic(auto)]

ghost use Rattle.std.specs.Prelude.{◌≡◌, ◌^◌, ◌≤◌, ◌<◌, ◌&&◌, nat_abs, eqb};
ghost use Rattle.board.specs.Limits.{largest_side};
ghost use Rattle.direction.specs.Answers.{quotient, direction_refusal_row, handed_direction, aim_row, direction_row, direction_between_row};
ghost use Rattle.direction.specs.declared.DirectionRefusal.TheVariants.{Leg};

use board::{Numbered, Refusal, Row};
use length::Length;
use spans::Span;

// The two parts of a leg's direction.
#[derive(Clone, Copy)]
pub struct Direction {
    pub x: f64,
    pub y: f64,
}

// Why a leg has no direction: 4 or 5, or 9 for equal ends.
#[derive(Clone, Copy, PartialEq, Eq)]
pub enum DirectionRefusal {
    Leg(Refusal),
    Equal,
}

impl Numbered for DirectionRefusal {
    ghost row = { direction_refusal_row };

    fn row(self) -> Row {
        match self {
            DirectionRefusal::Leg(why) => why.row(),
            DirectionRefusal::Equal => Row::of(9),
        }
    }
}

impl From<Refusal> for DirectionRefusal {
    ghost from_gives = { λ why refusal. refusal ≡ Leg why };

    fn from(why: Refusal) -> DirectionRefusal {
        DirectionRefusal::Leg(why)
    }
}

// A difference of d cells over u units: one rounded division, and then the sign.
fn ratio(d: i32, u: u64) -> f64
    requires { (nat_abs d ≤ largest_side) × (0 < u) × (u < 2 ^ 53) }
    ensures { result ≡ quotient d u }
{
    let q = (u64::from(d.unsigned_abs()) * Length::UNITS_PER_CELL) as f64 / u as f64;
    if d < 0 { -q } else { q }
}

// Whether a leg has equal ends, and so no direction.
fn has_equal_ends(span: Span) -> bool
    ensures { result ≡ (eqb (nat_abs span.dx) 0 && eqb (nat_abs span.dy) 0) }
{
    span.dx == 0 && span.dy == 0
}

// The direction of a leg whose differences passed the checks, or 9.
fn aim(span: Span) -> Result<Direction, DirectionRefusal>
    ensures { handed_direction result ≡ aim_row span.dx span.dy }
{
    if has_equal_ends(span) {
        return Err(DirectionRefusal::Equal);
    }
    let u = Length::from(span).units;
    let x = ratio(span.dx, u);
    let y = ratio(span.dy, u);
    Ok(Direction { x, y })
}

impl Direction {
    // The direction of a leg by its differences.
    pub fn of(dx: i32, dy: i32) -> Result<Direction, DirectionRefusal>
        ensures { handed_direction result ≡ direction_row dx dy }
    {
        aim(Span::of(dx, dy)?)
    }

    // The direction of a leg by its vertices.
    pub fn between(
        ax: usize,
        ay: usize,
        bx: usize,
        by: usize,
    ) -> Result<Direction, DirectionRefusal>
        ensures { handed_direction result ≡ direction_between_row ax ay bx by }
    {
        aim(Span::between(ax, ay, bx, by)?)
    }
}
