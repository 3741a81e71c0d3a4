// What the four cells round a vertex tell of it. Calls for the round of a taken vertex, which say what they require: the cells are
// read from the guarded copy, where the outside is blocked cells too.
ghost use Rattle.std.specs.Prelude.{◌≡◌, ◌≤◌};
ghost use Rattle.board.specs.Inner.{OnBoard};
ghost use Rattle.board.specs.Checked.{board_of};
ghost use Rattle.legs.specs.Pinched.{pinched};
ghost use Rattle.glance.specs.Glance.{in_one, four_cells, Glanced};

use guard::guarded::GuardedBoard;

// Four cells round a vertex in one number, each by the bit of the diagonal neighbour behind it.
fn gathered(nw: u64, ne: u64, sw: u64, se: u64) -> u64
    requires { ((nw ≤ 1) × (ne ≤ 1)) × ((sw ≤ 1) × (se ≤ 1)) }
    ensures { result ≡ in_one nw ne sw se }
{
    nw + 4 * ne + 256 * sw + 1024 * se
}

// The four cells round the vertex (x, y).
fn around(guarded: &GuardedBoard<'_>, x: usize, y: usize) -> u64
    requires { OnBoard (board_of guarded.now.board) x y }
    ensures { result ≡ four_cells (board_of guarded.now.board) x y }
{
    let guard = guarded.copy;
    let width = guarded.board.width;
    let at = y * (width + 2) + x;
    let below = at + width + 2;
    gathered(
        guard[at] as u64,
        guard[at + 1] as u64,
        guard[below] as u64,
        guard[below + 1] as u64,
    )
}

// The places round the vertex (x, y) whose vertices it sees, a bit each: a diagonal neighbour by the one cell between, another
// one by the two beside the step, which are blocked where both their bits, moved to its place, are set.
pub fn sighted(guarded: &GuardedBoard<'_>, x: usize, y: usize) -> u64
    requires { OnBoard (board_of guarded.now.board) x y }
    ensures { Glanced (board_of guarded.now.board) x y result }
{
    let c = around(guarded, x, y);
    let hidden = c | ((c << 1) & (c >> 1)) | ((c << 4) & (c >> 4));
    hidden ^ 0x757
}

// Whether the vertex (x, y) is pinched. The two cells right of it are read first: where they are alike, the other two do not
// matter.
pub fn is_pinched(guarded: &GuardedBoard<'_>, x: usize, y: usize) -> bool
    requires { OnBoard (board_of guarded.now.board) x y }
    ensures { result ≡ pinched (board_of guarded.now.board) x y }
{
    let guard = guarded.copy;
    let width = guarded.board.width;
    let at = y * (width + 2) + x;
    let below = at + width + 2;
    let ne = guard[at + 1];
    let se = guard[below + 1];
    if ne == se {
        return false;
    }
    let nw = guard[at];
    let sw = guard[below];
    (nw == se) & (sw == ne)
}
