// The layout bureau's routes: what the check of them answers.
#![tactic(auto)]

ghost use Rattle.std.specs.Prelude.{◌≡◌, false};
ghost use Rattle.bureau.specs.declared.CheckRefusal.TheVariants.{Job, Routes};
ghost use Rattle.bureau.specs.Answers.{check_refusal_row, of_job};
ghost use Rattle.bureau.specs.Inner.{fault_row};

use board::{Numbered, Row};
use refusals::JobRefusal;
use tracks::RouteRefusal;

// Why routes are not right. Net numbers and places stand as the file has them.
#[derive(Clone, Copy, PartialEq, Eq)]
pub enum CheckRefusal {
    // The job's own refusals, then the file's.
    Job(JobRefusal),
    Routes(RouteRefusal),
    // 19, 6 and 21: the board slice, a work slice or a result slice is too short.
    Board,
    Work,
    Results,
    // 24: the net is missing, or not in the job.
    Odd(usize),
    // 25: the path begins or ends at a wrong vertex.
    End(usize),
    // 26: a vertex off the board.
    Off { net: usize, place: usize },
    // 27: a leg of zero length, or without sight, or ending in a pinched vertex that is not the path's last.
    Leg { net: usize, place: usize },
    // 28: no path is claimed where one exists.
    Path(usize),
}

impl From<JobRefusal> for CheckRefusal {
    ghost from_gives = { λ why refusal. refusal ≡ Job why };

    fn from(why: JobRefusal) -> CheckRefusal {
        CheckRefusal::Job(why)
    }
}

impl From<RouteRefusal> for CheckRefusal {
    ghost from_gives = { λ why refusal. refusal ≡ Routes why };

    fn from(why: RouteRefusal) -> CheckRefusal {
        CheckRefusal::Routes(why)
    }
}

impl Numbered for CheckRefusal {
    ghost row = { check_refusal_row };

    fn row(self) -> Row {
        match self {
            CheckRefusal::Job(why) => why.row(),
            CheckRefusal::Routes(why) => why.row(),
            CheckRefusal::Board => Row::of(19),
            CheckRefusal::Work => Row::of(6),
            CheckRefusal::Results => Row::of(21),
            CheckRefusal::Odd(net) => Row::at(24, net),
            CheckRefusal::End(net) => Row::at(25, net),
            CheckRefusal::Off { net, place } => Row::at_both(26, net, place),
            CheckRefusal::Leg { net, place } => Row::at_both(27, net, place),
            CheckRefusal::Path(net) => Row::at(28, net),
        }
    }
}

// A point of a path, told by its coordinates and never by a vertex number.
#[derive(Clone, Copy, PartialEq, Eq)]
pub struct Point {
    pub x: usize,
    pub y: usize,
}

// Where the points of a net stand in a route file: so many records, from the first on.
#[derive(Clone, Copy)]
pub struct Points {
    pub first: usize,
    pub count: usize,
}

// What is wrong with what the bureau gives for a net: 25 to 28, with the place in the path.
#[derive(Clone, Copy, PartialEq, Eq)]
pub enum Fault {
    End,
    Off(usize),
    Leg(usize),
    Path,
}

impl Fault {
    // Why the routes are refused where the net with this number has the fault.
    pub fn of(self, net: usize) -> CheckRefusal
        ensures row { check_refusal_row result ≡ fault_row net self }
        ensures not_the_jobs { of_job result ≡ false }
    {
        match self {
            Fault::End => CheckRefusal::End(net),
            Fault::Off(place) => CheckRefusal::Off { net, place },
            Fault::Leg(place) => CheckRefusal::Leg { net, place },
            Fault::Path => CheckRefusal::Path(net),
        }
    }
}
