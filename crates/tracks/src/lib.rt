// Route files: what they say, why they are refused, and what their reader and their writer answer.
#![tactic(auto)]

ghost use Rattle.std.specs.Prelude.{◌≡◌};
ghost use Rattle.tracks.specs.declared.ReadRefusal.TheVariants.{Routes};
ghost use Rattle.tracks.specs.Kind.{code_of, Decodes};
ghost use Rattle.tracks.specs.Faults.{refusal_row};
ghost use Rattle.tracks.specs.Answers.{read_refusal_row, write_refusal_row};

use board::{Numbered, Row};

// A path has no more points than this: a place has two bytes.
pub const PLACES: usize = 65536;

// What byte 0 of a record says that it is: a point of a path, or a net with no path.
#[derive(Clone, Copy, PartialEq, Eq)]
pub enum Kind {
    Point,
    NoPath,
}

// A byte that stands for no kind of record.
#[derive(Clone, Copy, PartialEq, Eq)]
pub struct UnknownKind;

impl TryFrom<u8> for Kind {
    type Error = UnknownKind;

    ghost try_from_gives = { Decodes };

    fn try_from(byte: u8) -> Result<Self, UnknownKind> {
        match byte {
            4 => Ok(Kind::Point),
            5 => Ok(Kind::NoPath),
            _ => Err(UnknownKind),
        }
    }
}

impl From<Kind> for u8 {
    ghost from_gives = { λ kind byte. byte ≡ code_of kind };

    fn from(kind: Kind) -> u8 {
        match kind {
            Kind::Point => 4,
            Kind::NoPath => 5,
        }
    }
}

// Why a route file is refused: 11, 13, 23 with record and byte, or 22.
#[derive(Clone, Copy, PartialEq, Eq)]
pub enum RouteRefusal {
    Uneven,
    Unknown(usize),
    Unused { record: usize, byte: usize },
    Order(usize),
}

impl Numbered for RouteRefusal {
    ghost row = { refusal_row };

    fn row(self) -> Row {
        match self {
            RouteRefusal::Uneven => Row::of(11),
            RouteRefusal::Unknown(record) => Row::at(13, record),
            RouteRefusal::Unused { record, byte } => Row::at_both(23, record, byte),
            RouteRefusal::Order(record) => Row::at(22, record),
        }
    }
}

// How many nets and points are read.
#[derive(Clone, Copy, PartialEq, Eq)]
pub struct Sizes {
    pub nets: usize,
    pub points: usize,
}

// Why routes are not read: the file is refused, or a slice is too short, 21.
#[derive(Clone, Copy, PartialEq, Eq)]
pub enum ReadRefusal {
    Routes(RouteRefusal),
    Short,
}

impl From<RouteRefusal> for ReadRefusal {
    ghost from_gives = { λ why refusal. refusal ≡ Routes why };

    fn from(refused: RouteRefusal) -> ReadRefusal {
        ReadRefusal::Routes(refused)
    }
}

impl Numbered for ReadRefusal {
    ghost row = { read_refusal_row };

    fn row(self) -> Row {
        match self {
            ReadRefusal::Routes(why) => why.row(),
            ReadRefusal::Short => Row::of(21),
        }
    }
}

// Why routes are not written: a record would be out of order, 22, or a slice is too short, 21.
#[derive(Clone, Copy, PartialEq, Eq)]
pub enum WriteRefusal {
    Order(usize),
    Short,
}

impl Numbered for WriteRefusal {
    ghost row = { write_refusal_row };

    fn row(self) -> Row {
        match self {
            WriteRefusal::Order(record) => Row::at(22, record),
            WriteRefusal::Short => Row::of(21),
        }
    }
}
