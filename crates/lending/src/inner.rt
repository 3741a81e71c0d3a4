// A call for the crates above, which says what it requires.
ghost use Rattle.std.specs.Prelude.{◌≡◌, ◌≤◌};
ghost use Rattle.board.specs.Limits.{largest_side};
ghost use Rattle.board.specs.Handed.{verdict};
ghost use Rattle.lending.specs.Short.{short_row, lent_rows};

use crate::{Lengths, Short};

// Whether all are long enough for the cells and the vertices of a board with these sides, and for so many nets.
#[tactic(auto, unfolding(crate::specs::Short::lent_rows))]
pub fn check_room(width: usize, height: usize, nets: usize, lent: Lengths) -> Result<(), Short>
    requires { (width ≤ largest_side) × (height ≤ largest_side) }
    ensures { verdict short_row result ≡ lent_rows width height nets lent }
{
    let cells = width * height;
    if lent.board < cells {
        return Err(Short::Board);
    }
    let vertices = (width + 1) * (height + 1);
    if (lent.g < vertices)
        | ((lent.parents < vertices) | ((lent.marks < vertices) | (lent.legs < vertices)))
    {
        return Err(Short::Work);
    }
    if (lent.units < nets) | (lent.counts < nets) {
        return Err(Short::Results);
    }
    Ok(())
}
