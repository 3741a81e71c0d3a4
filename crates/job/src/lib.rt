// The job reader: the board and the nets of a job that the check accepts are taken out.
#![tactic(auto)]

ghost use Rattle.std.specs.Prelude.{◌≡◌};
ghost use Rattle.job.specs.declared.BoardRefusal.TheVariants as unread;
ghost use Rattle.job.specs.declared.NetRefusal.TheVariants as unfound;
ghost use Rattle.job.specs.Answers.{board_refusal, net_refusal, handed_board, handed_net, BoardRead, net_row};

use board::{Numbered, Row};
use faults::inner::check_job;
use inner::{net_at, write_board};
use kinds::Net;
use refusals::JobRefusal;

pub mod inner;

// What a board read gives: the sides and how many nets there are.
#[derive(Clone, Copy)]
pub struct Sides {
    pub width: usize,
    pub height: usize,
    pub nets: usize,
}

// Why a board is not read: 10 to 18 or 23, or 19.
#[derive(Clone, Copy, PartialEq, Eq)]
pub enum BoardRefusal {
    Job(JobRefusal),
    Short,
}

impl Numbered for BoardRefusal {
    ghost row = { board_refusal };

    fn row(self) -> Row {
        match self {
            BoardRefusal::Job(refusal) => refusal.row(),
            BoardRefusal::Short => Row::of(19),
        }
    }
}

impl From<JobRefusal> for BoardRefusal {
    ghost from_gives = { λ why refusal. refusal ≡ unread.Job why };

    fn from(why: JobRefusal) -> Self {
        BoardRefusal::Job(why)
    }
}

// Why a net is not read: 10 to 18 or 23, or 20.
#[derive(Clone, Copy, PartialEq, Eq)]
pub enum NetRefusal {
    Job(JobRefusal),
    NoNet,
}

impl Numbered for NetRefusal {
    ghost row = { net_refusal };

    fn row(self) -> Row {
        match self {
            NetRefusal::Job(refusal) => refusal.row(),
            NetRefusal::NoNet => Row::of(20),
        }
    }
}

impl From<JobRefusal> for NetRefusal {
    ghost from_gives = { λ why refusal. refusal ≡ unfound.Job why };

    fn from(why: JobRefusal) -> Self {
        NetRefusal::Job(why)
    }
}

// Checks the whole job, then writes its cells into the lent slice.
pub fn read_board(job: &[u8], board: &mut [u8]) -> Result<Sides, BoardRefusal>
    ensures { BoardRead job.now board.old (handed_board result) board.new }
{
    let whole = check_job(job)?;
    write_board(job, whole, board)
}

// Checks the whole job, then takes out the net with that index, counted from 0.
pub fn read_net(job: &[u8], index: usize) -> Result<Net, NetRefusal>
    ensures { handed_net result ≡ net_row job.now index }
{
    check_job(job)?;
    net_at(job, index).ok_or(NetRefusal::NoNet)
}
