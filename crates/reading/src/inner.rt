// The calls for the crate above: a job's board and its nets, for C.
ghost use Rattle.std.specs.Prelude.{◌≡◌};
ghost use Rattle.job.specs.Answers.{net_row};
ghost use Rattle.reading.specs.Reading.{told_net};
ghost use Rattle.reading.specs.Calls.{ReadForC};

use crate::{Net, Sides};
use job::{read_board, read_net};

// A job's board.
pub fn board_for_c(job: &[u8], board: &mut [u8]) -> Sides
    ensures { ReadForC job.now board.old result board.new }
{
    read_board(job, board).into()
}

// A job's net by its index from 0.
pub fn net_for_c(job: &[u8], index: usize) -> Net
    ensures { result ≡ told_net (net_row job.now index) }
{
    read_net(job, index).into()
}
