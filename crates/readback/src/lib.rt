// The reader of route files: records into slices of net numbers, counts of points, and the points' x and y.
#![tactic(auto)]

ghost use Rattle.tracks.specs.Layout.{slices};
ghost use Rattle.tracks.specs.Answers.{handed_read, RoutesRead};

use check::check_routes;
use gather::inner::gather;
use tracks::{ReadRefusal, Sizes};

pub mod check;

// Writes the nets of a route file, how many points each has, 0 for no path, and all points' x and y into the lent slices.
pub fn read_routes(
    file: &[u8],
    nets: &mut [u8],
    counts: &mut [usize],
    xs: &mut [u8],
    ys: &mut [u8],
) -> Result<Sizes, ReadRefusal>
    ensures { RoutesRead file.now (slices nets.old counts.old xs.old ys.old) (handed_read result) (slices nets.new counts.new xs.new ys.new) }
{
    let found = check_routes(file)?;
    let sizes = Sizes {
        nets: found.nets,
        points: found.points,
    };
    let short = (nets.len() < sizes.nets) | (counts.len() < sizes.nets);
    if short | ((xs.len() < sizes.points) | (ys.len() < sizes.points)) {
        return Err(ReadRefusal::Short);
    }
    gather(file, nets, counts, xs, ys, sizes);
    Ok(sizes)
}
