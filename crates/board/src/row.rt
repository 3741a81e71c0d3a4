// A row of the table of refusals, and what every kind of refusal has: its row.
ghost use Rattle.std.specs.Prelude.{◌≡◌};
ghost use Rattle.board.specs.Handed.{Verdict, refused};
ghost use Rattle.board.specs.Row.{row_of};

// The number of a refusal and its places, each 0 where none is named.
#[derive(Clone, Copy, PartialEq, Eq)]
pub struct Row {
    pub number: u64,
    pub place: usize,
    pub second: usize,
}

impl Row {
    // A row that names no place.
    pub fn of(number: u64) -> Self
        ensures { row_of result ≡ refused number 0 0 }
    {
        Row::at(number, 0)
    }

    // A row that names one place.
    pub fn at(number: u64, place: usize) -> Self
        ensures { row_of result ≡ refused number place 0 }
    {
        Row::at_both(number, place, 0)
    }

    // A row that names two.
    pub fn at_both(number: u64, place: usize, second: usize) -> Self
        ensures { row_of result ≡ refused number place second }
    {
        Row {
            number,
            place,
            second,
        }
    }
}

// A kind of refusal: each has its row of the table.
pub trait Numbered: Copy {
    ghost row: { Self → Verdict };

    fn row(self) -> Row
        ensures { row_of result ≡ row self };
}
