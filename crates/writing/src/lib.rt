// The lines that the route program prints, written into a lent slice.
#![tactic(auto)]

ghost use Rattle.lines.specs.Answers.{bytes_of, handed_line, LineWritten};

use board::Vertex;
use fitting::inner::line_fits;
use lines::{Line, Short};
use put::put_line;

mod put;

// Writes a line at the start of the lent slice and says how many bytes it has, or writes nothing if it has no room there.
pub fn write_line(line: Line, width: usize, path: &[Vertex], out: &mut [u8]) -> Result<usize, Short>
    ensures { LineWritten (bytes_of line width path.now) out.old (handed_line result) out.new }
{
    if !line_fits(line, width, path, out.len()) {
        return Err(Short);
    }
    Ok(put_line(line, width, path, out))
}
