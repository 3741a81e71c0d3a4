// The check of the layout bureau's routes: every net of a job beside the records that the bureau gives for it.
#![tactic(auto)]

ghost use Rattle.bureau.specs.Answers.{slices, Checked};
ghost use Rattle.approve.specs.Inner.{BothPassed};

use board::Vertex;
use board::checked::Board;
use bureau::CheckRefusal;
use faults::inner::check_job;
use judge::inner::check_nets;
use lending::Lengths;
use lending::inner::check_room;
use painting::inner::write_cells;
use readback::check::check_routes;
use steps::Progress;

// Checks the job, then the file, then the room in the lent slices, then the nets.
pub fn approve(
    job: &[u8],
    file: &[u8],
    board: &mut [u8],
    g: &mut [u64],
    parents: &mut [Vertex],
    marks: &mut [u8],
    legs: &mut [Vertex],
    units: &mut [u64],
    counts: &mut [u32],
) -> Result<usize, CheckRefusal>
    ensures { Checked job.now file.now (slices board.old g.old parents.old marks.old legs.old units.old counts.old) (slices board.new g.new parents.new marks.new legs.new units.new counts.new) result }
{
    let whole = check_job(job)?;
    check_routes(file)?;
    approve_accepted(
        job, whole, file, board, g, parents, marks, legs, units, counts,
    )
}

// 19, 6 and 21, then the nets on the job's cells.
fn approve_accepted(
    job: &[u8],
    whole: Progress,
    file: &[u8],
    board: &mut [u8],
    g: &mut [u64],
    parents: &mut [Vertex],
    marks: &mut [u8],
    legs: &mut [Vertex],
    units: &mut [u64],
    counts: &mut [u32],
) -> Result<usize, CheckRefusal>
    requires { BothPassed job.now file.now whole }
    ensures { Checked job.now file.now (slices board.old g.old parents.old marks.old legs.old units.old counts.old) (slices board.new g.new parents.new marks.new legs.new units.new counts.new) result }
{
    let width = whole.width;
    let height = whole.height;
    let nets = whole.nets;
    let lent = Lengths {
        board: board.len(),
        g: g.len(),
        parents: parents.len(),
        marks: marks.len(),
        legs: legs.len(),
        units: units.len(),
        counts: counts.len(),
    };
    check_room(width, height, nets, lent)?;
    let cells = width * height;
    write_cells(job, width, cells, board);
    let painted = Board {
        cells: &board[..cells],
        width,
        height,
    };
    check_nets(
        job, file, &painted, nets, g, parents, marks, legs, units, counts,
    )
}
