// Runs document 01's worked rows; what it prints is compared with the file stdout.
#![tactic(auto)]

use board::{MOST, Numbered, Vertex};
use legs::Stop;
use length::Length;
use router::{Answer, RequestRefusal, route};
use sight::sight;
use std::fmt::{Display, Formatter, Write};
use std::{fmt, io};

// The answer to a row's question, or the number of its refusal.
fn answer<T: Display + Drop, R: Numbered>(rt: &impl Print, answer: Result<T, R>) -> io::Result<()> {
    match answer {
        Ok(found) => println!(rt; "{found}"),
        Err(why) => println!(rt; "refused {}", why.row().number),
    }
}

// What stops a leg first, in words.
#[derive(Clone, Copy)]
struct Sight(Stop);

impl Display for Sight {
    fn fmt<W: Write>(&self, f: &mut Formatter<W>) -> fmt::Result {
        match self.0 {
            Stop::Clear => write!(f, "yes"),
            Stop::Cell(x, y) => write!(f, "no, the cell {x},{y}"),
            Stop::Edge(x, y, x2, y2) => write!(f, "no, the edge {x},{y} {x2},{y2}"),
            Stop::Vertex(x, y) => write!(f, "no, the vertex {x},{y}"),
        }
    }
}

// What a search found, in words: the units of a path, and both counts.
#[derive(Clone, Copy)]
struct Route(Answer);

impl Display for Route {
    fn fmt<W: Write>(&self, f: &mut Formatter<W>) -> fmt::Result {
        match self.0 {
            Answer::Found {
                units,
                vertices,
                expansions,
                tests,
                ..
            } => write!(
                f,
                "path of {vertices} vertices, {units}, {expansions}, {tests}"
            ),
            Answer::NoPath { expansions, tests } => write!(f, "none, {expansions}, {tests}"),
        }
    }
}

// The rows of the table of lengths.
fn length_rows(rt: &impl Print) -> io::Result<()> {
    let legs = [
        (0, 0),
        (1, 0),
        (1, 1),
        (-1, 2),
        (3, -4),
        (63, 63),
        (-63, 0),
        (64, 0),
        (0, -64),
        (-64, 64),
        (i32::MIN, 0),
    ];
    for (dx, dy) in legs {
        print!(rt; "length of {dx},{dy}: ")?;
        answer(rt, Length::of(dx, dy).map(|length| length.units))?;
    }
    Ok(())
}

// The rows on sight, on boards of 2 by 2 cells.
fn sight_rows(rt: &impl Print) -> io::Result<()> {
    let corner = [0u8, 1, 0, 0];
    let legs = [
        (0, 0, 2, 1),
        (0, 0, 2, 2),
        (1, 0, 1, 1),
        (1, 0, 2, 0),
        (2, 0, 0, 0),
    ];
    for (ax, ay, bx, by) in legs {
        print!(rt; "sight ({ax},{ay})-({bx},{by}): ")?;
        answer(rt, sight(&corner, 2, 2, ax, ay, bx, by).map(Sight))?;
    }
    let gap = [0u8, 1, 1, 0];
    print!(rt; "sight (0,0)-(2,2), a diagonal gap: ")?;
    answer(rt, sight(&gap, 2, 2, 0, 0, 2, 2).map(Sight))
}

// The route from (0,0) to a goal, with the lent path slice.
fn route_to(
    gx: usize,
    gy: usize,
    cells: &[u8],
    width: usize,
    height: usize,
    path: &mut [Vertex],
) -> Result<Route, RequestRefusal> {
    let mut g = [0u64; MOST];
    let mut parents = [0 as Vertex; MOST];
    let mut marks = [0u8; MOST];
    let mut legs = [0 as Vertex; MOST];
    route(
        cells,
        width,
        height,
        0,
        0,
        gx,
        gy,
        &mut g,
        &mut parents,
        &mut marks,
        &mut legs,
        path,
    )
    .map(Route)
}

// The rows on routes.
fn route_rows(rt: &impl Print) -> io::Result<()> {
    let free = [0u8];
    let full = [1u8];
    let gate = [0u8, 1, 0];
    let mut path = [0 as Vertex; MOST];
    print!(rt; "route (1,1), 1x1 free: ")?;
    answer(rt, route_to(1, 1, &free, 1, 1, &mut path))?;
    print!(rt; "route (1,1), 1x1 blocked: ")?;
    answer(rt, route_to(1, 1, &full, 1, 1, &mut path))?;
    print!(rt; "route (0,0), 1x1 blocked: ")?;
    answer(rt, route_to(0, 0, &full, 1, 1, &mut path))?;
    print!(rt; "route (3,0), 3x1 blocked in the middle: ")?;
    answer(rt, route_to(3, 0, &gate, 3, 1, &mut path))
}

// The path slice of net 1, and the sides of a board.
fn boundaries(rt: &impl Print) -> io::Result<()> {
    let corner = [0u8, 1, 0, 0];
    let mut path = [0 as Vertex; 3];
    for room in [3, 2] {
        print!(rt; "net 1 with a path slice of {room}: ")?;
        answer(rt, route_to(2, 1, &corner, 2, 2, &mut path[..room]))?;
    }
    let free = [0u8; 63];
    for side in [63, 64, 0] {
        print!(rt; "a side of {side}: ")?;
        let cells = &free[..side.min(63)];
        answer(rt, route_to(1, 0, cells, side, 1, &mut path))?;
    }
    Ok(())
}

// All rows, in order, until one is lost.
fn rows(rt: &impl Print) -> io::Result<()> {
    length_rows(rt)?;
    sight_rows(rt)?;
    route_rows(rt)?;
    boundaries(rt)
}

fn main(rt: HostRuntime) {
    if let Err(error) = rows(&rt) {
        let _ = eprintln!(rt; "worked: standard output: {error}");
    }
}
