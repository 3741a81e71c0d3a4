// The call for the crate above: the line call for C, by the number that another call handed back.
ghost use Rattle.std.specs.Prelude.{◌≡◌};
ghost use Rattle.lines.specs.Answers.{handed_line};
ghost use Rattle.printing.specs.Printing.{printed, told_line};
ghost use Rattle.printing.specs.Calls.{LineForC};
ghost use Rattle.printing.specs.Inner.{line_for};

use crate::Printed;
use board::{Numbered, Row, Vertex};
use lines::inner::refusal_line;
use lines::{Line, Short};
use writing::write_line;

// The numbers of a net with a path and of one without.
const PATH: u64 = 0;

const NONE: u64 = 8;

// The line of a net or of a refusal, by what a call handed back.
pub fn line_for_c(
    net: u64,
    number: u64,
    place: u64,
    second: u64,
    units: u64,
    expansions: u64,
    tests: u64,
    width: usize,
    path: &[Vertex],
    out: &mut [u8],
) -> Printed
    ensures { LineForC (printed net number place second units expansions tests width path.now) out.old result out.new }
{
    let line = line_for(net, number, place, second, units, expansions, tests);
    Printed::from(write_line(line, width, path, out))
}

// The line that a number asks for: a net's, or every other number's refusal.
fn line_for(
    net: u64,
    number: u64,
    place: u64,
    second: u64,
    units: u64,
    expansions: u64,
    tests: u64,
) -> Line
    ensures { result ≡ line_for net number place second units expansions tests }
{
    if number == PATH {
        return Line::Path {
            number: net,
            units,
            expansions,
            tests,
        };
    }
    if number == NONE {
        return Line::None {
            number: net,
            expansions,
            tests,
        };
    }
    refusal_line(Row {
        number,
        place: place as usize,
        second: second as usize,
    })
}

// What C gets of the line call.
impl From<Result<usize, Short>> for Printed {
    ghost from_gives = { λ answer told. told ≡ told_line (handed_line answer) };

    fn from(answer: Result<usize, Short>) -> Self {
        match answer {
            Ok(bytes) => Printed {
                number: 0,
                place: 0,
                second: 0,
                bytes: bytes as u64,
            },
            Err(why) => {
                let row = why.row();
                Printed {
                    number: row.number,
                    place: row.place as u64,
                    second: row.second as u64,
                    bytes: 0,
                }
            }
        }
    }
}
