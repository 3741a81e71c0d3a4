// Calls for the crates above: a board, a keepout or a net is judged by what was read before it.
ghost use Rattle.std.specs.Prelude.{◌≡◌, ◌&&◌, ◌<◌, leb, ltb};
ghost use Rattle.board.specs.Handed.{side_fits};
ghost use Rattle.kinds.specs.Job.{longest_job};
ghost use Rattle.steps.specs.Steps.{handed_step, board_step, keepout_step, net_step};

use crate::Progress;
use board::inner::{is_vertex, side_fits};
use kinds::{Net, Rectangle};
use refusals::JobRefusal;

// Whether a board may have these sides.
fn sides_fit(width: usize, height: usize) -> bool
    ensures { result ≡ (side_fits width && side_fits height) }
{
    side_fits(width) && side_fits(height)
}

// Whether a keepout has cells and lies on the board.
fn keepout_fits(past: Progress, cells: Rectangle) -> bool
    ensures { result ≡ ((ltb cells.left cells.right && ltb cells.top cells.bottom) && (leb cells.right past.width && leb cells.bottom past.height)) }
{
    (cells.left < cells.right && cells.top < cells.bottom)
        && (cells.right <= past.width && cells.bottom <= past.height)
}

// Whether both ends of a net are on the board.
fn ends_fit(past: Progress, net: Net) -> bool
    ensures { result ≡ ((leb net.sx past.width && leb net.sy past.height) && (leb net.gx past.width && leb net.gy past.height)) }
{
    is_vertex(past.width, past.height, net.sx, net.sy)
        && is_vertex(past.width, past.height, net.gx, net.gy)
}

// A board as record i: 12, then 14.
#[tactic(auto, unfolding(crate::specs::Steps::board_step))]
pub fn board_step(i: usize, width: usize, height: usize) -> Result<Progress, JobRefusal>
    ensures { handed_step result ≡ board_step i width height }
{
    if i != 0 {
        return Err(JobRefusal::Order(i));
    }
    if !sides_fit(width, height) {
        return Err(JobRefusal::Side(i));
    }
    Ok(Progress {
        width,
        height,
        last: 0,
        nets: 0,
    })
}

// A keepout as record i: 12, 18, then 15.
#[tactic(auto, unfolding(crate::specs::Steps::keepout_step))]
pub fn keepout_step(past: Progress, i: usize, cells: Rectangle) -> Result<Progress, JobRefusal>
    ensures { handed_step result ≡ keepout_step past i cells.left cells.top cells.right cells.bottom }
{
    if i == 0 {
        return Err(JobRefusal::Order(i));
    }
    if 0 < past.nets {
        return Err(JobRefusal::Late(i));
    }
    if !keepout_fits(past, cells) {
        return Err(JobRefusal::Keepout(i));
    }
    Ok(past)
}

// A net as record i: 12, 17, then 16.
#[tactic(auto, unfolding(crate::specs::Steps::net_step))]
pub fn net_step(past: Progress, i: usize, net: Net) -> Result<Progress, JobRefusal>
    requires { past.nets < longest_job }
    ensures { handed_step result ≡ net_step past i net.number net.sx net.sy net.gx net.gy }
{
    if i == 0 {
        return Err(JobRefusal::Order(i));
    }
    if net.number <= past.last {
        return Err(JobRefusal::Number(i));
    }
    if !ends_fit(past, net) {
        return Err(JobRefusal::End(i));
    }
    Ok(Progress {
        width: past.width,
        height: past.height,
        last: net.number,
        nets: past.nets + 1,
    })
}
