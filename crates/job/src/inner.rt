// Calls for the crates above, whose job has been accepted: each says what it requires.
ghost use Rattle.std.specs.Prelude.{◌≡◌};
ghost use Rattle.records.specs.Records.{records};
ghost use Rattle.faults.specs.Inner.{Accepted, progress};
ghost use Rattle.job.specs.Answers.{handed_board, BoardRead, handed_found, net_row};

use crate::{BoardRefusal, Sides};
use kinds::Net;
use netlist::inner::find_net;
use painting::inner::write_cells;
use steps::Progress;

// The board of a job that has been accepted already, of which `whole` is known; nothing is written if the lent slice is short.
pub fn write_board(job: &[u8], whole: Progress, board: &mut [u8]) -> Result<Sides, BoardRefusal>
    requires accepted { Accepted job.now }
    requires whole_value { whole ≡ progress job.now (records job.now) }
    ensures { BoardRead job.now board.old (handed_board result) board.new }
{
    let cells = whole.width * whole.height;
    if board.len() < cells {
        return Err(BoardRefusal::Short);
    }
    write_cells(job, whole.width, cells, board);
    Ok(Sides {
        width: whole.width,
        height: whole.height,
        nets: whole.nets,
    })
}

// The net with that index, counted from 0, of a job that has been accepted already.
pub fn net_at(job: &[u8], index: usize) -> Option<Net>
    requires { Accepted job.now }
    ensures { handed_found result ≡ net_row job.now index }
{
    find_net(job, index)
}
