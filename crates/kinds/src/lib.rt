// The kinds of a job's records: a board, a keepout or a net, by the type in byte 0.
#![tactic(auto)]

ghost use Rattle.kinds.specs.Kind.{Decodes};

pub mod inner;

// What a record is of.
#[derive(Clone, Copy, PartialEq, Eq)]
pub enum Kind {
    Board,
    Keepout,
    Net,
}

impl TryFrom<usize> for Kind {
    type Error = RecordFault;

    ghost try_from_gives = { Decodes };

    fn try_from(code: usize) -> Result<Self, RecordFault> {
        match code {
            1 => Ok(Kind::Board),
            2 => Ok(Kind::Keepout),
            3 => Ok(Kind::Net),
            _ => Err(RecordFault::Unknown),
        }
    }
}

// Cells in a rectangle, from (left, top) to just before (right, bottom).
#[derive(Clone, Copy)]
pub struct Rectangle {
    pub left: usize,
    pub top: usize,
    pub right: usize,
    pub bottom: usize,
}

// A net: its number, start (sx, sy) and goal (gx, gy).
#[derive(Clone, Copy)]
pub struct Net {
    pub number: usize,
    pub sx: usize,
    pub sy: usize,
    pub gx: usize,
    pub gy: usize,
}

// What a record says.
#[derive(Clone, Copy)]
pub enum Record {
    Board { width: usize, height: usize },
    Keepout(Rectangle),
    Net(Net),
}

// Why a record says nothing: its type is unknown, or the byte with this number is not used and not 0.
#[derive(Clone, Copy, PartialEq, Eq)]
pub enum RecordFault {
    Unknown,
    Unused(usize),
}
