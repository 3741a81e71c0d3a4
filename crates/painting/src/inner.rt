// Calls for the crates above, whose job has been accepted: each says what it requires.
ghost use Rattle.std.specs.Prelude.{◌≡◌, ◌*◌, ◌≤◌, ◌<◌, ◌++◌, length, drop};
ghost use Rattle.records.specs.Records.{records};
ghost use Rattle.kinds.specs.Inner.{record_at};
ghost use Rattle.kinds.specs.Job.{width, height, inside, in_keepout, board_cells};
ghost use Rattle.faults.specs.Inner.{Accepted};
ghost use Rattle.painting.specs.Cells.{Filled, Painted, keepout_in};

use kinds::inner::record_at;
use kinds::{Record, Rectangle};
use records::RECORD;

// What the byte of a free cell is, and of a blocked one.
const FREE: u8 = 0;

const BLOCKED: u8 = 1;

// Puts a value into the cells from one to just before another.
fn fill(board: &mut [u8], from: usize, to: usize, value: u8)
    requires { (from ≤ to) × (to ≤ length board.old) }
    ensures { Filled from to value board.old board.new }
{
    board[from..to].fill(value);
}

// Blocks the cells of one keepout, row by row.
fn paint(board: &mut [u8], width: usize, keepout: Rectangle)
    requires { (keepout.left < keepout.right) × (keepout.right ≤ width) × (keepout.top ≤ keepout.bottom) × (keepout.bottom * width ≤ length board.old) }
    ensures { Painted width (inside keepout.left keepout.top keepout.right keepout.bottom) board.old board.new }
{
    for y in keepout.top..keepout.bottom {
        let row = y * width;
        fill(board, row + keepout.left, row + keepout.right, BLOCKED);
    }
}

// The keepout that record i says, if it says one.
fn keepout_of(job: &[u8], i: usize) -> Option<Rectangle>
    requires { i < records job.now }
    ensures { result ≡ keepout_in (record_at job.now i) }
{
    match record_at(job, i) {
        Ok(Record::Keepout(keepout)) => Some(keepout),
        _ => None,
    }
}

// Blocks the cells of every keepout of an accepted job.
fn paint_keepouts(job: &[u8], wide: usize, board: &mut [u8])
    requires accepted { Accepted job.now }
    requires wide_value { (wide ≡ width job.now) × (wide * height job.now ≤ length board.old) }
    ensures { Painted wide (in_keepout job.now) board.old board.new }
{
    for i in 0..job.len() / RECORD {
        if let Some(keepout) = keepout_of(job, i) {
            paint(board, wide, keepout);
        }
    }
}

// Writes the cells of an accepted job's board into the slice, and keeps what lies beyond them.
pub fn write_cells(job: &[u8], wide: usize, cells: usize, board: &mut [u8])
    requires accepted { Accepted job.now }
    requires wide_value { (wide ≡ width job.now) × (cells ≡ width job.now * height job.now) × (cells ≤ length board.old) }
    ensures { board.new ≡ board_cells job.now ++ drop cells board.old }
{
    fill(board, 0, cells, FREE);
    paint_keepouts(job, wide, board);
}
