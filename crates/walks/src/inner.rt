// What stops a leg between two vertices of a checked board, and whether it has sight.
ghost use Rattle.std.specs.Prelude.{◌≡◌};
ghost use Rattle.board.specs.Checked.{board_of};
ghost use Rattle.legs.specs.Sight.{sees};
ghost use Rattle.legs.specs.Stops.{first_stop};

use edges::inner::{first_walled, stop_after};
use legs::Stop;
use legs::leg::Leg;
use slants::inner::{first_blocked, stop_at};

// What stops the leg first, counted from its first end. It is compiled into each caller: one that asks for sight alone divides nothing.
#[inline(always)]
pub fn first_stop(leg: &Leg<'_>) -> Stop
    ensures { result ≡ first_stop (board_of leg.now.board) leg.now.ax leg.now.ay leg.now.bx leg.now.by }
{
    if leg.ay == leg.by {
        let met = first_walled(&leg.board, true, leg.ay, leg.ax, leg.bx);
        return stop_after(true, leg.ay, leg.ax, leg.bx, met);
    }
    if leg.ax == leg.bx {
        let met = first_walled(&leg.board, false, leg.ax, leg.ay, leg.by);
        return stop_after(false, leg.ax, leg.ay, leg.by, met);
    }
    let met = first_blocked(leg);
    stop_at(leg.board.width, leg.ax, leg.ay, leg.bx, leg.by, met)
}

// Whether the leg has sight.
pub fn sees(leg: &Leg<'_>) -> bool
    ensures { result ≡ sees (board_of leg.now.board) leg.now.ax leg.now.ay leg.now.bx leg.now.by }
{
    let stop = first_stop(leg);
    matches!(stop, Stop::Clear)
}
