// Calls for the crates above: the lines are those of the definition.
ghost use Rattle.std.specs.Prelude.{◌≡◌, length, ◌≤◌, ◌<◌};
ghost use Rattle.faults.specs.Faults.{job_rows};
ghost use Rattle.refusals.specs.Refusals.{refusal_row};
ghost use Rattle.answer.specs.Answers.{handed_route};
ghost use Rattle.lines.specs.Answers.{bytes_of};
ghost use Rattle.netroute.specs.Limits.{line_room};
ghost use Rattle.replies.specs.Output.{line_count, line_at};
ghost use Rattle.replies.specs.Inner.{Answered, AllSent};

use answer::{Answer, RequestRefusal};
use board::{Numbered, Vertex};
use lines::Line;
use lines::inner::refusal_line;
use refusals::JobRefusal;
use streams::{Lost, write_whole};
use writing::write_line;

// A line was lost after so many were sent.
#[derive(Clone, Copy)]
pub struct LostAfter {
    pub lines: usize,
}

// Hands line `index` of the job, counted from 0, to the system: the bytes are the definition's.
fn send<R: Print + Eprint + AllocGlobal>(
    rt: &R,
    job: &[u8],
    index: usize,
    bytes: &[u8],
) -> Result<(), Lost>
    requires index_bound { index < line_count job.now }
    requires bytes_value { bytes.now ≡ line_at job.now index }
{
    write_whole(rt, bytes)
}

// Composes a line in the buffer and sends it.
fn print<R: Print + Eprint + AllocGlobal>(
    rt: &R,
    job: &[u8],
    index: usize,
    line: Line,
    width: usize,
    path: &[Vertex],
    buffer: &mut [u8],
) -> Result<(), Lost>
    requires index_bound { index < line_count job.now }
    requires path_value { bytes_of line width path.now ≡ line_at job.now index }
    requires path_in_bounds { length (bytes_of line width path.now) ≤ length buffer.old }
{
    match write_line(line, width, path, buffer) {
        Ok(n) => send(rt, job, index, &buffer[..n]),
        Err(_) => unreachable!(),
    }
}

// Prints a refused job's one line, which names no vertex. How many lines were sent.
pub fn print_refusal<R: Print + Eprint + AllocGlobal>(
    rt: &R,
    job: &[u8],
    why: JobRefusal,
    buffer: &mut [u8],
) -> Result<usize, LostAfter>
    requires job_value { job_rows job.now ≡ refusal_row why }
    requires line_room_in_bounds { line_room ≤ length buffer.old }
    ensures { AllSent job.now result }
{
    let unnamed = [0 as Vertex; 1];
    let line = refusal_line(why.row());
    match print(rt, job, 0, line, 0, &unnamed, buffer) {
        Ok(()) => Ok(1),
        Err(_) => Err(LostAfter { lines: 0 }),
    }
}

// Prints what was found for a net.
pub fn print_answer<R: Print + Eprint + AllocGlobal>(
    rt: &R,
    job: &[u8],
    index: usize,
    number: u64,
    answer: Result<Answer, RequestRefusal>,
    width: usize,
    path: &[Vertex],
    buffer: &mut [u8],
) -> Result<(), Lost>
    requires answered { Answered job.now index number width (handed_route answer) path.now }
    requires line_room_in_bounds { line_room ≤ length buffer.old }
{
    let Ok(answer) = answer else { unreachable!() };
    match answer {
        Answer::Found {
            units,
            vertices,
            expansions,
            tests,
            ..
        } => {
            let line = Line::Path {
                number,
                units,
                expansions,
                tests,
            };
            print(rt, job, index, line, width, &path[..vertices], buffer)
        }
        Answer::NoPath { expansions, tests } => {
            let line = Line::None {
                number,
                expansions,
                tests,
            };
            print(rt, job, index, line, width, path, buffer)
        }
    }
}
