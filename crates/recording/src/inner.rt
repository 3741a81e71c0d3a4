// The calls for the crate above: the writing of a route file and a path's points, for C.
ghost use Rattle.std.specs.Prelude.{◌≡◌};
ghost use Rattle.board.specs.Handed.{verdict};
ghost use Rattle.tracks.specs.Layout.{slices};
ghost use Rattle.tracks.specs.Answers.{handed_write};
ghost use Rattle.recording.specs.Recording.{told_records, told_points};
ghost use Rattle.recording.specs.Calls.{RoutesWrittenForC, PointsForC};

use crate::{Recorded, Turned};
use board::{Numbered, Vertex};
use corners::path_points;
use tracks::WriteRefusal;
use writeback::write_routes;

// What C gets of a write.
impl From<Result<usize, WriteRefusal>> for Recorded {
    ghost from_gives = { λ answer recorded. recorded ≡ told_records (handed_write answer) };

    fn from(answer: Result<usize, WriteRefusal>) -> Recorded {
        match answer {
            Ok(records) => Recorded {
                number: 0,
                place: 0,
                second: 0,
                records: records as u64,
            },
            Err(why) => {
                let row = why.row();
                Recorded {
                    number: row.number,
                    place: row.place as u64,
                    second: row.second as u64,
                    records: 0,
                }
            }
        }
    }
}

// What C gets of a path turned into points: the row of its refusal, or 0 and no place.
impl<R: Numbered> From<Result<(), R>> for Turned {
    ghost from_gives = { λ answer turned. turned ≡ told_points (verdict R.Numbered.row answer) };

    fn from(answer: Result<(), R>) -> Turned {
        match answer {
            Ok(()) => Turned {
                number: 0,
                place: 0,
                second: 0,
            },
            Err(why) => {
                let row = why.row();
                Turned {
                    number: row.number,
                    place: row.place as u64,
                    second: row.second as u64,
                }
            }
        }
    }
}

// Slices of routes into a route file.
pub fn write_routes_for_c(
    nets: &[u8],
    counts: &[usize],
    xs: &[u8],
    ys: &[u8],
    file: &mut [u8],
) -> Recorded
    ensures { RoutesWrittenForC (slices nets.now counts.now xs.now ys.now) file.old result file.new }
{
    write_routes(nets, counts, xs, ys, file).into()
}

// A path's vertex numbers into x and y.
pub fn path_points_for_c(path: &[Vertex], width: usize, xs: &mut [u8], ys: &mut [u8]) -> Turned
    ensures { PointsForC path.now width xs.old ys.old result xs.new ys.new }
{
    path_points(path, width, xs, ys).into()
}
