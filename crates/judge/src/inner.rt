// The nets of an accepted job beside the routes of a file that passed, on the job's cells.
ghost use Rattle.std.specs.Prelude.{◌≡◌, ◌≤◌, ◌<◌, length};
ghost use Rattle.board.specs.Checked.{board_of};
ghost use Rattle.board.specs.Handed.{passes};
ghost use Rattle.kinds.specs.Job.{nets};
ghost use Rattle.faults.specs.Inner.{Accepted};
ghost use Rattle.tracks.specs.Tracks.{routes_in};
ghost use Rattle.tracks.specs.Faults.{file_rows};
ghost use Rattle.tracks.specs.Answers.{laid};
ghost use Rattle.bureau.specs.Nets.{job_net, points_for, units_of, legs_of};
ghost use Rattle.bureau.specs.Answers.{searching};
ghost use Rattle.kinds.specs.Inner.{as_net};
ghost use Rattle.bureau.specs.Inner.{Room, EndsOf, OnJob, NetJudged, NetsJudged, NetsChecked, AllRight};

use board::Vertex;
use board::checked::Board;
use bureau::{CheckRefusal, Fault};
use claims::inner::judge_none;
use kinds::Net;
use netlist::inner::find_net;
use points::inner::judge_points;
use results::inner::write_net;
use roster::inner::odd_net;
use runs::inner::find_points;

// The net with that index.
fn wanted_net(job: &[u8], index: usize) -> Net
    requires accepted { Accepted job.now }
    requires index_bound { index < nets job.now }
    ensures { as_net result ≡ job_net job.now index }
{
    find_net(job, index).unwrap()
}

// What is wrong with what the file gives for a net.
fn judge_net(
    board: &Board<'_>,
    file: &[u8],
    net: Net,
    g: &mut [u64],
    parents: &mut [Vertex],
    marks: &mut [u8],
    legs: &mut [Vertex],
) -> Result<(), Fault>
    requires room { Room (board_of board.now) (searching g.old parents.old marks.old legs.old) }
    requires ends_of { EndsOf (board_of board.now) (as_net net) }
    requires file_value { file_rows file.now ≡ passes }
    ensures { NetJudged (board_of board.now) (as_net net) (points_for (routes_in file.now) net.number) (searching g.old parents.old marks.old legs.old) (searching g.new parents.new marks.new legs.new) result }
{
    match find_points(file, net.number) {
        None => judge_none(board, net, g, parents, marks, legs),
        Some(points) => judge_points(board, file, points, net),
    }
}

// Each net in the job's order, as far as the first with a fault.
fn judge_nets(
    job: &[u8],
    file: &[u8],
    board: &Board<'_>,
    nets: usize,
    g: &mut [u64],
    parents: &mut [Vertex],
    marks: &mut [u8],
    legs: &mut [Vertex],
) -> Result<(), CheckRefusal>
    requires on_job { OnJob job.now file.now board.now.cells.now board.now.width board.now.height nets }
    requires room { Room (board_of board.now) (searching g.old parents.old marks.old legs.old) }
    ensures { NetsJudged job.now (routes_in file.now) (searching g.old parents.old marks.old legs.old) (searching g.new parents.new marks.new legs.new) result }
{
    for index in 0..nets {
        let net = wanted_net(job, index);
        let judged = judge_net(board, file, net, g, parents, marks, legs);
        if let Err(fault) = judged {
            return Err(fault.of(net.number));
        }
    }
    Ok(())
}

// Writes the lengths and the legs of all nets, which are right.
fn write_results(job: &[u8], file: &[u8], nets: usize, units: &mut [u64], counts: &mut [u32])
    requires all_right { AllRight job.now file.now nets }
    requires nets_in_bounds { (nets ≤ length units.old) × (nets ≤ length counts.old) }
    ensures { (units.new ≡ laid (units_of job.now (routes_in file.now)) units.old) × (counts.new ≡ laid (legs_of job.now (routes_in file.now)) counts.old) }
{
    for index in 0..nets {
        let net = wanted_net(job, index);
        write_net(file, net.number, index, units, counts);
    }
}

// 24, then the nets in order, then the results.
pub fn check_nets(
    job: &[u8],
    file: &[u8],
    board: &Board<'_>,
    nets: usize,
    g: &mut [u64],
    parents: &mut [Vertex],
    marks: &mut [u8],
    legs: &mut [Vertex],
    units: &mut [u64],
    counts: &mut [u32],
) -> Result<usize, CheckRefusal>
    requires on_job { OnJob job.now file.now board.now.cells.now board.now.width board.now.height nets }
    requires room { Room (board_of board.now) (searching g.old parents.old marks.old legs.old) }
    requires nets_in_bounds { (nets ≤ length units.old) × (nets ≤ length counts.old) }
    ensures { NetsChecked job.now file.now (searching g.old parents.old marks.old legs.old) (searching g.new parents.new marks.new legs.new) units.old units.new counts.old counts.new result }
{
    if let Some(net) = odd_net(job, file) {
        return Err(CheckRefusal::Odd(net));
    }
    judge_nets(job, file, board, nets, g, parents, marks, legs)?;
    write_results(job, file, nets, units, counts);
    Ok(nets)
}
