// The lines of cells beside a line of vertices, by which unit edges with blocked cells on both sides are told.
ghost use Rattle.std.specs.Prelude.{◌≡◌, ◌-◌, ◌<◌, min};

// The line of cells behind the vertices' line c, of `lines` lines of cells. The outside is blocked, so that at a border the
// one inner line decides: it is read for both sides.
pub fn line_behind(c: usize, lines: usize) -> usize
    requires { 0 < lines }
    ensures { result ≡ min c (lines - 1) }
{
    if c < lines { c } else { lines - 1 }
}
