// A line's bytes, put piece by piece: each function puts its line at the start of a slice and answers how many bytes it has.
ghost use Rattle.lines.specs.Lines.{none_line, refused_line, refused_twice_line};
ghost use Rattle.lines.specs.Answers.{bytes_of};
ghost use Rattle.lines.specs.Inner.{Put, Room};

use board::Vertex;
use lines::Line;
use netline::inner::put_net;
use putting::inner::{put_both, put_newline, put_number};

// A net without a path.
fn put_none(out: &mut [u8], number: u64, expansions: u64, tests: u64) -> usize
    requires { Room (none_line number expansions tests) out.old 0 }
    ensures { Put (none_line number expansions tests) out.old 0 result out.new }
{
    let counts = put_number(out, 0, b"net ", number);
    let end = put_both(
        out,
        counts,
        b" none expanded ",
        expansions,
        b" tests ",
        tests,
    );
    put_newline(out, end)
}

// A refused job.
fn put_refused(out: &mut [u8], number: u64, place: u64) -> usize
    requires { Room (refused_line number place) out.old 0 }
    ensures { Put (refused_line number place) out.old 0 result out.new }
{
    let end = put_both(out, 0, b"refused ", number, b" at ", place);
    put_newline(out, end)
}

// A refused job with two places.
fn put_refused_twice(out: &mut [u8], number: u64, place: u64, second: u64) -> usize
    requires { Room (refused_twice_line number place second) out.old 0 }
    ensures { Put (refused_twice_line number place second) out.old 0 result out.new }
{
    let next = put_both(out, 0, b"refused ", number, b" at ", place);
    let end = put_number(out, next, b" ", second);
    put_newline(out, end)
}

pub fn put_line(line: Line, width: usize, path: &[Vertex], out: &mut [u8]) -> usize
    requires { Room (bytes_of line width path.now) out.old 0 }
    ensures { Put (bytes_of line width path.now) out.old 0 result out.new }
{
    match line {
        Line::Path {
            number,
            units,
            expansions,
            tests,
        } => put_net(out, number, units, expansions, tests, width, path),
        Line::None {
            number,
            expansions,
            tests,
        } => put_none(out, number, expansions, tests),
        Line::Refused { number, place } => put_refused(out, number, place),
        Line::RefusedTwice {
            number,
            place,
            second,
        } => put_refused_twice(out, number, place, second),
    }
}
