// A call for the crate above, which has read the board: it says what it requires.
ghost use Rattle.std.specs.Prelude.{length, ◌≤◌, ◌<◌};
ghost use Rattle.netroute.specs.Limits.{line_room};
ghost use Rattle.replies.specs.Inner.{AllSent};
ghost use Rattle.nets.specs.Inner.{Opened};

use board::Vertex;
use job::Sides;
use job::inner::net_at;
use netroute::VERTICES;
use netroute::inner::search_net;
use replies::inner::{LostAfter, print_answer};
use streams::Lost;

// Routes the net with that index, and prints its line.
fn print_net<R: Print + Eprint + AllocGlobal>(
    rt: &R,
    job: &[u8],
    cells: &[u8],
    sides: Sides,
    index: usize,
    buffer: &mut [u8],
) -> Result<(), Lost>
    requires opened { Opened job.now cells.now sides.width sides.height sides.nets }
    requires index_lt_nets { index < sides.nets }
    requires line_room_in_bounds { line_room ≤ length buffer.old }
{
    let Some(net) = net_at(job, index) else {
        unreachable!()
    };
    let Sides { width, height, .. } = sides;
    let mut path = [0 as Vertex; VERTICES];
    let answer = search_net(
        cells, width, height, net.sx, net.sy, net.gx, net.gy, &mut path,
    );
    let number = net.number as u64;
    print_answer(rt, job, index, number, answer, width, &path, buffer)
}

// A line for each net, in order, until one is lost. How many lines were sent.
pub fn print_nets<R: Print + Eprint + AllocGlobal>(
    rt: &R,
    job: &[u8],
    cells: &[u8],
    sides: Sides,
    buffer: &mut [u8],
) -> Result<usize, LostAfter>
    requires opened { Opened job.now cells.now sides.width sides.height sides.nets }
    requires line_room_in_bounds { line_room ≤ length buffer.old }
    ensures { AllSent job.now result }
{
    let mut sent = 0;
    for index in 0..sides.nets {
        print_net(rt, job, cells, sides, index, buffer).map_err(|_| LostAfter { lines: sent })?;
        sent += 1;
    }
    Ok(sent)
}
