// The writer of route files: slices of net numbers, counts of points, and the points' x and y into records.
#![tactic(auto)]

ghost use Rattle.tracks.specs.Layout.{slices};
ghost use Rattle.tracks.specs.Answers.{handed_write, RoutesWritten};

use laying::inner::lay_routes;
use records::RECORD;
use tally::inner::measure;
use tracks::WriteRefusal;

// Writes the records of these routes into the lent slice: net after net, each with its points, or as none where its count is 0.
pub fn write_routes(
    nets: &[u8],
    counts: &[usize],
    xs: &[u8],
    ys: &[u8],
    file: &mut [u8],
) -> Result<usize, WriteRefusal>
    ensures { RoutesWritten (slices nets.now counts.now xs.now ys.now) file.old (handed_write result) file.new }
{
    let size = measure(nets, counts)?;
    let short = (counts.len() < nets.len()) | (file.len() < size.records * RECORD);
    if short | ((xs.len() < size.points) | (ys.len() < size.points)) {
        return Err(WriteRefusal::Short);
    }
    lay_routes(nets, counts, xs, ys, file);
    Ok(size.records)
}
