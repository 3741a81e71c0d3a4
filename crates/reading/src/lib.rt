// What C gets of a job's board and of its nets, as include/wexxolin.h declares it.
#![tactic(auto)]

ghost use Rattle.std.specs.Prelude.{◌≡◌};
ghost use Rattle.board.specs.Handed.{judged};
ghost use Rattle.board.specs.Row.{row_of};
ghost use Rattle.job.specs.Answers.{no_sides, no_net, handed_board, handed_net};
ghost use Rattle.reading.specs.Reading.{told_board, told_net};

use board::{Numbered, Row};
use job::{BoardRefusal, NetRefusal};

pub mod inner;

// A job's board.
#[repr(C)]
#[derive(Clone, Copy)]
pub struct Sides {
    pub number: u64,
    pub place: u64,
    pub second: u64,
    pub width: u64,
    pub height: u64,
    pub nets: u64,
}

impl Sides {
    fn refused(row: Row) -> Self
        ensures { result ≡ told_board (judged no_sides (row_of row)) }
    {
        Sides {
            number: row.number,
            place: row.place as u64,
            second: row.second as u64,
            width: 0,
            height: 0,
            nets: 0,
        }
    }
}

impl From<Result<job::Sides, BoardRefusal>> for Sides {
    ghost from_gives = { λ answer told. told ≡ told_board (handed_board answer) };

    fn from(answer: Result<job::Sides, BoardRefusal>) -> Self {
        match answer {
            Ok(sides) => Sides {
                number: 0,
                place: 0,
                second: 0,
                width: sides.width as u64,
                height: sides.height as u64,
                nets: sides.nets as u64,
            },
            Err(refusal) => Sides::refused(refusal.row()),
        }
    }
}

// A job's net.
#[repr(C)]
#[derive(Clone, Copy)]
pub struct Net {
    pub number: u64,
    pub place: u64,
    pub second: u64,
    pub net: u64,
    pub sx: u64,
    pub sy: u64,
    pub gx: u64,
    pub gy: u64,
}

impl Net {
    fn refused(row: Row) -> Self
        ensures { result ≡ told_net (judged no_net (row_of row)) }
    {
        Net {
            number: row.number,
            place: row.place as u64,
            second: row.second as u64,
            net: 0,
            sx: 0,
            sy: 0,
            gx: 0,
            gy: 0,
        }
    }
}

impl From<Result<kinds::Net, NetRefusal>> for Net {
    ghost from_gives = { λ answer told. told ≡ told_net (handed_net answer) };

    fn from(answer: Result<kinds::Net, NetRefusal>) -> Self {
        match answer {
            Ok(net) => Net {
                number: 0,
                place: 0,
                second: 0,
                net: net.number as u64,
                sx: net.sx as u64,
                sy: net.sy as u64,
                gx: net.gx as u64,
                gy: net.gy as u64,
            },
            Err(refusal) => Net::refused(refusal.row()),
        }
    }
}
