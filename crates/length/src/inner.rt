// Calls for the crates above: each says what it requires.
ghost use Rattle.std.specs.Prelude.{◌≡◌, ◌*◌, ◌^◌, ◌<◌, ◌≤◌};
ghost use Rattle.board.specs.Limits.{largest_side};
ghost use Rattle.length.specs.Units.{units_of};
ghost use Rattle.length.specs.Floats.{in_cells};

use crate::Length;
use root::inner::root;

// The units of a leg, by its dx² + dy².
#[tactic(auto, using(crate::proofs::Units::units_one))]
pub fn units_of_square(s: u64) -> u64
    requires { s ≤ 2 * (largest_side * largest_side) }
    ensures { result ≡ units_of s }
{
    root(s * (Length::UNITS_PER_CELL * Length::UNITS_PER_CELL))
}

// Units in cells, where the cast loses nothing.
#[tactic(auto, unfolding(crate::specs::Floats::in_cells))]
pub fn exact_cells(units: u64) -> f64
    requires { units < 2 ^ 53 }
    ensures { result ≡ in_cells units }
{
    units as f64 / Length::UNITS_PER_CELL as f64
}
