// The route program: a job on standard input, a line for each net on standard output.
#![tactic(auto)]

ghost use Rattle.std.specs.Prelude.{◌≡◌};
ghost use Rattle.netroute.specs.Limits.{cell_room, line_room};
ghost use Rattle.replies.specs.Inner.{AllSent};

use faults::LONGEST;
use job::{BoardRefusal, read_board};
use lines::{FIELD, WORDS};
use netroute::{VERTICES, WIDEST};
use nets::inner::print_nets;
use replies::inner::{LostAfter, print_refusal};
use streams::read_job;

// One byte more than the longest job, so that a longer one is known.
const ROOM: usize = LONGEST + 1;

// The cells of the widest board.
const CELLS: usize = WIDEST * WIDEST;

// The bytes that suffice for each of its lines.
const LINE: usize = WORDS + FIELD * VERTICES;

// The constants are the definitions' numbers.
fn cell_room() -> usize
    ensures { result ≡ cell_room }
{
    CELLS
}

fn line_room() -> usize
    ensures { result ≡ line_room }
{
    LINE
}

// Prints what there is to say of a job. How many lines were sent.
fn serve<R: Print + Eprint + AllocGlobal>(rt: &R, job: &[u8]) -> Result<usize, LostAfter>
    ensures { AllSent job.now result }
{
    let mut board = [0u8; CELLS];
    let mut buffer = [0u8; LINE];
    match read_board(job, &mut board) {
        Ok(sides) => {
            let cells = &board[..sides.width * sides.height];
            print_nets(rt, job, cells, sides, &mut buffer)
        }
        Err(BoardRefusal::Job(why)) => print_refusal(rt, job, why, &mut buffer),
        Err(BoardRefusal::Short) => unreachable!(),
    }
}

fn main(rt: HostRuntime) {
    let mut job = [0u8; ROOM];
    if let Ok(n) = read_job(&rt, &mut job) {
        let _ = serve(&rt, &job[..n]);
    }
}
