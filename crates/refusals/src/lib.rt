// The refusals of a job: each with its number of the table, and where in the job it is.
#![tactic(auto)]

ghost use Rattle.refusals.specs.Refusals.{refusal_row};

use board::{Numbered, Row};

// Why a job is refused: document 01's 10 to 18, from 12 on with the number of the record, and document 02's 23.
#[derive(Clone, Copy, PartialEq, Eq)]
pub enum JobRefusal {
    Long,
    Uneven,
    Order(usize),
    Unknown(usize),
    Side(usize),
    Keepout(usize),
    End(usize),
    Number(usize),
    Late(usize),
    Unused { record: usize, byte: usize },
}

impl Numbered for JobRefusal {
    ghost row = { refusal_row };

    fn row(self) -> Row {
        match self {
            JobRefusal::Long => Row::of(10),
            JobRefusal::Uneven => Row::of(11),
            JobRefusal::Order(record) => Row::at(12, record),
            JobRefusal::Unknown(record) => Row::at(13, record),
            JobRefusal::Side(record) => Row::at(14, record),
            JobRefusal::Keepout(record) => Row::at(15, record),
            JobRefusal::End(record) => Row::at(16, record),
            JobRefusal::Number(record) => Row::at(17, record),
            JobRefusal::Late(record) => Row::at(18, record),
            JobRefusal::Unused { record, byte } => Row::at_both(23, record, byte),
        }
    }
}
