// How many bytes a line takes, and whether it has room.
ghost use Rattle.std.specs.Prelude.{◌≡◌, ◌∷◌, ◌++◌, leb, length, ◌+◌, ◌*◌, max};
ghost use Rattle.board.specs.Board.{column_of, row_of};
ghost use Rattle.lines.specs.Lines.{decimal, most_digits, vertex_field, vertex_fields, spaced};
ghost use Rattle.lines.specs.Answers.{bytes_of};
ghost use Rattle.lines.specs.Inner.{Counted, Placed};

use board::Vertex;
use lines::Line;

// A vertex by its column and row.
#[derive(Clone, Copy)]
pub struct Place {
    pub x: usize,
    pub y: usize,
}

// Where a vertex number lies on a board of that width; a width of 0 counts as 1.
pub fn place_of(width: usize, v: usize) -> Place
    ensures { Placed (max width 1) v result.x result.y }
{
    if v <= width {
        return Place { x: v, y: 0 };
    }
    if width == 0 {
        return Place { x: v % 2, y: v / 2 };
    }
    Place {
        x: v % (width + 1),
        y: v / (width + 1),
    }
}

// How many decimal digits a number has.
pub fn count_digits(n: u64) -> usize
    ensures { Counted (decimal n) most_digits result }
{
    match n.checked_ilog10() {
        Some(tens) => tens as usize + 1,
        None => 1,
    }
}

// How many decimal digits two numbers have.
fn count_both(n: u64, m: u64) -> usize
    ensures { Counted (decimal n ++ decimal m) (2 * most_digits) result }
{
    count_digits(n) + count_digits(m)
}

// How many bytes a vertex takes, with the space before it.
fn count_vertex(width: usize, v: Vertex) -> usize
    ensures { Counted (32 ∷ vertex_field width v) (2 + 2 * most_digits) result }
{
    let place = place_of(width, v as usize);
    2 + count_both(place.x as u64, place.y as u64)
}

// Whether so many bytes and the vertices of a path have room.
fn path_fits(words: usize, width: usize, path: &[Vertex], room: usize) -> bool
    ensures { result ≡ leb (words + length (spaced (vertex_fields width path.now))) room }
{
    if room < words {
        return false;
    }
    let mut left = room - words;
    for v in path {
        let bytes = count_vertex(width, *v);
        if left < bytes {
            return false;
        }
        left -= bytes;
    }
    true
}

// Whether a line has room in so many bytes: its words, spaces and newline, its numbers, its vertices.
pub fn line_fits(line: Line, width: usize, path: &[Vertex], room: usize) -> bool
    ensures { result ≡ leb (length (bytes_of line width path.now)) room }
{
    match line {
        Line::Path {
            number,
            units,
            expansions,
            tests,
        } => {
            let numbers = count_both(number, units) + count_both(expansions, tests);
            path_fits(31 + numbers, width, path, room)
        }
        Line::None {
            number,
            expansions,
            tests,
        } => 27 + count_digits(number) + count_both(expansions, tests) <= room,
        Line::Refused { number, place } => 13 + count_both(number, place) <= room,
        Line::RefusedTwice {
            number,
            place,
            second,
        } => 14 + count_both(number, place) + count_digits(second) <= room,
    }
}
