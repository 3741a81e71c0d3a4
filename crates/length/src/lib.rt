// The length of a leg, in whole units and in cells.
#![tactic(auto)]

ghost use Rattle.std.specs.Prelude.{◌≡◌};
ghost use Rattle.length.specs.Units.{units_per_cell, units};
ghost use Rattle.length.specs.Floats.{in_cells};
ghost use Rattle.length.specs.Answers.{handed_length, length_row, length_between_row};

use board::Refusal;
use inner::units_of_square;
use spans::Span;

pub mod inner;

// A length in whole units.
#[derive(Clone, Copy)]
pub struct Length {
    pub units: u64,
}

// The length of a leg whose differences passed the checks.
impl From<Span> for Length {
    ghost from_gives = { λ span length. length.units ≡ units span.dx span.dy };

    fn from(span: Span) -> Length {
        let x = u64::from(span.dx.unsigned_abs());
        let y = u64::from(span.dy.unsigned_abs());
        let units = units_of_square(x * x + y * y);
        Length { units }
    }
}

impl Length {
    // One cell is this many units, 2 to the 20th.
    pub const UNITS_PER_CELL: u64 = 1048576;

    // The type's units per cell are the definition's.
    pub fn units_per_cell() -> u64
        ensures { result ≡ units_per_cell }
    {
        Self::UNITS_PER_CELL
    }

    // The length of a leg by its differences, or refusal 4 (dx) or 5 (dy).
    pub fn of(dx: i32, dy: i32) -> Result<Length, Refusal>
        ensures { handed_length result ≡ length_row dx dy }
    {
        Span::of(dx, dy).map(Length::from)
    }

    // The length of a leg by its vertices, or refusal 4 (the first) or 5 (the second).
    pub fn between(ax: usize, ay: usize, bx: usize, by: usize) -> Result<Length, Refusal>
        ensures { handed_length result ≡ length_between_row ax ay bx by }
    {
        Span::between(ax, ay, bx, by).map(Length::from)
    }

    // The length in cells: with nothing lost below 2^53 units, else from the nearest f64.
    #[tactic(auto, unfolding(crate::specs::Floats::in_cells))]
    pub fn cells(self) -> f64
        ensures { result ≡ in_cells self.units }
    {
        std::num::nearest_u64_to_f64(self.units) / Self::UNITS_PER_CELL as f64
    }
}
