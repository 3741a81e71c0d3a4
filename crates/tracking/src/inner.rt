// The call for the crate above: the reading of a route file, for C.
ghost use Rattle.std.specs.Prelude.{◌≡◌};
ghost use Rattle.tracks.specs.Layout.{slices};
ghost use Rattle.tracks.specs.Answers.{handed_read};
ghost use Rattle.tracking.specs.Tracking.{told_routes};
ghost use Rattle.tracking.specs.Calls.{RoutesReadForC};

use crate::Routes;
use board::Numbered;
use readback::read_routes;
use tracks::{ReadRefusal, Sizes};

// What C gets of a read.
impl From<Result<Sizes, ReadRefusal>> for Routes {
    ghost from_gives = { λ answer routes. routes ≡ told_routes (handed_read answer) };

    fn from(answer: Result<Sizes, ReadRefusal>) -> Routes {
        match answer {
            Ok(sizes) => Routes {
                number: 0,
                place: 0,
                second: 0,
                nets: sizes.nets as u64,
                points: sizes.points as u64,
            },
            Err(why) => {
                let row = why.row();
                Routes {
                    number: row.number,
                    place: row.place as u64,
                    second: row.second as u64,
                    nets: 0,
                    points: 0,
                }
            }
        }
    }
}

// A route file into slices of routes.
pub fn read_routes_for_c(
    file: &[u8],
    nets: &mut [u8],
    counts: &mut [usize],
    xs: &mut [u8],
    ys: &mut [u8],
) -> Routes
    ensures { RoutesReadForC file.now (slices nets.old counts.old xs.old ys.old) result (slices nets.new counts.new xs.new ys.new) }
{
    read_routes(file, nets, counts, xs, ys).into()
}
