// The calls for C, as include/wexxolin.h declares them. Each passes its parameters on to a call for C below, which tells what a call
// answers; the route and the check do so here, since to prove that many slices are passed on takes seconds each time.
#![tactic(auto)]

ghost use Rattle.std.specs.Prelude.{◌≡◌};
ghost use Rattle.board.specs.Board.{board};
ghost use Rattle.direction.specs.Answers.{direction_row, direction_between_row};
ghost use Rattle.length.specs.Answers.{length_row, length_between_row};
ghost use Rattle.sight.specs.Answers.{sight_row};
ghost use Rattle.router.specs.Answers.{slices};
ghost use Rattle.job.specs.Answers.{net_row};
ghost use Rattle.packed.specs.Answers.{count_row};
ghost use Rattle.tracks.specs.Layout as layout;
ghost use Rattle.bureau.specs.Answers as bureau;
ghost use Rattle.version.specs.Version.{version};
ghost use Rattle.sighting.specs.Sighting.{told_sight};
ghost use Rattle.measuring.specs.Measuring.{told_length};
ghost use Rattle.aiming.specs.Aiming.{told_direction};
ghost use Rattle.routing.specs.Calls.{RoutedForC};
ghost use Rattle.reading.specs.Reading.{told_net};
ghost use Rattle.reading.specs.Calls.{ReadForC};
ghost use Rattle.packing.specs.Calls.{UnpackedForC, PackedForC};
ghost use Rattle.counting.specs.Counting.{told_count};
ghost use Rattle.tracking.specs.Calls.{RoutesReadForC};
ghost use Rattle.recording.specs.Calls.{RoutesWrittenForC, PointsForC};
ghost use Rattle.approval.specs.Calls.{CheckedForC};
ghost use Rattle.printing.specs.Printing.{printed};
ghost use Rattle.printing.specs.Calls.{LineForC};

use aiming::Toward;
use aiming::inner::{direction_between_for_c, direction_for_c};
use approval::Approval;
use approve::approve;
use board::Vertex;
use counting::Counted;
use counting::inner::count_packed_for_c;
use measuring::Long;
use measuring::inner::{length_between_for_c, length_for_c};
use packing::Packing;
use packing::inner::{pack_for_c, unpack_for_c};
use printing::Printed;
use printing::inner::line_for_c;
use reading::inner::{board_for_c, net_for_c};
use reading::{Net, Sides};
use recording::inner::{path_points_for_c, write_routes_for_c};
use recording::{Recorded, Turned};
use router::route;
use routing::Found;
use sighting::Seen;
use sighting::inner::sight_for_c;
use tracking::Routes;
use tracking::inner::read_routes_for_c;
use version::library_version;

// Which version the library is.
#[unsafe(no_mangle)]
pub extern "C" fn wexxolin_version() -> u64
    ensures { result ≡ version }
{
    library_version()
}

// What stops the leg from (ax, ay) to (bx, by) first.
#[unsafe(no_mangle)]
pub extern "C" fn wexxolin_sight_1(
    cells: &[u8],
    width: usize,
    height: usize,
    ax: usize,
    ay: usize,
    bx: usize,
    by: usize,
) -> Seen
    ensures { result ≡ told_sight (sight_row (board cells.now width height) ax ay bx by) }
{
    sight_for_c(cells, width, height, ax, ay, bx, by)
}

// The length of a leg by its differences.
#[unsafe(no_mangle)]
pub extern "C" fn wexxolin_length_1(dx: i32, dy: i32) -> Long
    ensures { result ≡ told_length (length_row dx dy) }
{
    length_for_c(dx, dy)
}

// The length of a leg by its vertices.
#[unsafe(no_mangle)]
pub extern "C" fn wexxolin_length_between_1(ax: usize, ay: usize, bx: usize, by: usize) -> Long
    ensures { result ≡ told_length (length_between_row ax ay bx by) }
{
    length_between_for_c(ax, ay, bx, by)
}

// The direction of a leg by its differences.
#[unsafe(no_mangle)]
pub extern "C" fn wexxolin_direction_1(dx: i32, dy: i32) -> Toward
    ensures { result ≡ told_direction (direction_row dx dy) }
{
    direction_for_c(dx, dy)
}

// The direction of a leg by its vertices.
#[unsafe(no_mangle)]
pub extern "C" fn wexxolin_direction_between_1(ax: usize, ay: usize, bx: usize, by: usize) -> Toward
    ensures { result ≡ told_direction (direction_between_row ax ay bx by) }
{
    direction_between_for_c(ax, ay, bx, by)
}

// The route from (sx, sy) to (gx, gy).
#[unsafe(no_mangle)]
pub extern "C" fn wexxolin_route_2(
    cells: &[u8],
    width: usize,
    height: usize,
    sx: usize,
    sy: usize,
    gx: usize,
    gy: usize,
    g: &mut [u64],
    parents: &mut [Vertex],
    marks: &mut [u8],
    legs: &mut [Vertex],
    path: &mut [Vertex],
) -> Found
    ensures { RoutedForC (board cells.now width height) sx sy gx gy (slices g.old parents.old marks.old legs.old path.old) (slices g.new parents.new marks.new legs.new path.new) result }
{
    Found::from(route(
        cells, width, height, sx, sy, gx, gy, g, parents, marks, legs, path,
    ))
}

// A job's board.
#[unsafe(no_mangle)]
pub extern "C" fn wexxolin_board_1(job: &[u8], board: &mut [u8]) -> Sides
    ensures { ReadForC job.now board.old result board.new }
{
    board_for_c(job, board)
}

// A job's net by its index from 0.
#[unsafe(no_mangle)]
pub extern "C" fn wexxolin_net_1(job: &[u8], index: usize) -> Net
    ensures { result ≡ told_net (net_row job.now index) }
{
    net_for_c(job, index)
}

// Packed bytes into cells.
#[unsafe(no_mangle)]
pub extern "C" fn wexxolin_unpack_1(
    packed: &[u8],
    width: usize,
    height: usize,
    cells: &mut [u8],
) -> Packing
    ensures { UnpackedForC packed.now width height cells.old result cells.new }
{
    unpack_for_c(packed, width, height, cells)
}

// Cells into packed bytes.
#[unsafe(no_mangle)]
pub extern "C" fn wexxolin_pack_1(
    cells: &[u8],
    width: usize,
    height: usize,
    packed: &mut [u8],
) -> Packing
    ensures { PackedForC (board cells.now width height) packed.old result packed.new }
{
    pack_for_c(cells, width, height, packed)
}

// How many cells of packed bytes are blocked.
#[unsafe(no_mangle)]
pub extern "C" fn wexxolin_count_packed_1(packed: &[u8], width: usize, height: usize) -> Counted
    ensures { result ≡ told_count (count_row packed.now width height) }
{
    count_packed_for_c(packed, width, height)
}

// A route file into slices of routes.
#[unsafe(no_mangle)]
pub extern "C" fn wexxolin_read_routes_1(
    file: &[u8],
    nets: &mut [u8],
    counts: &mut [usize],
    xs: &mut [u8],
    ys: &mut [u8],
) -> Routes
    ensures { RoutesReadForC file.now (layout.slices nets.old counts.old xs.old ys.old) result (layout.slices nets.new counts.new xs.new ys.new) }
{
    read_routes_for_c(file, nets, counts, xs, ys)
}

// Slices of routes into a route file.
#[unsafe(no_mangle)]
pub extern "C" fn wexxolin_write_routes_1(
    nets: &[u8],
    counts: &[usize],
    xs: &[u8],
    ys: &[u8],
    file: &mut [u8],
) -> Recorded
    ensures { RoutesWrittenForC (layout.slices nets.now counts.now xs.now ys.now) file.old result file.new }
{
    write_routes_for_c(nets, counts, xs, ys, file)
}

// A path's vertex numbers into x and y.
#[unsafe(no_mangle)]
pub extern "C" fn wexxolin_path_points_1(
    path: &[Vertex],
    width: usize,
    xs: &mut [u8],
    ys: &mut [u8],
) -> Turned
    ensures { PointsForC path.now width xs.old ys.old result xs.new ys.new }
{
    path_points_for_c(path, width, xs, ys)
}

// The layout bureau's routes beside a job.
#[unsafe(no_mangle)]
pub extern "C" fn wexxolin_check_1(
    job: &[u8],
    routes: &[u8],
    board: &mut [u8],
    g: &mut [u64],
    parents: &mut [Vertex],
    marks: &mut [u8],
    legs: &mut [Vertex],
    units: &mut [u64],
    leg_counts: &mut [u32],
) -> Approval
    ensures { CheckedForC job.now routes.now (bureau.slices board.old g.old parents.old marks.old legs.old units.old leg_counts.old) result (bureau.slices board.new g.new parents.new marks.new legs.new units.new leg_counts.new) }
{
    Approval::from(approve(
        job, routes, board, g, parents, marks, legs, units, leg_counts,
    ))
}

// The line of a net or of a refusal, by what a call handed back.
#[unsafe(no_mangle)]
pub extern "C" fn wexxolin_line_1(
    net: u64,
    number: u64,
    place: u64,
    second: u64,
    units: u64,
    expansions: u64,
    tests: u64,
    width: usize,
    path: &[Vertex],
    out: &mut [u8],
) -> Printed
    ensures { LineForC (printed net number place second units expansions tests width path.now) out.old result out.new }
{
    line_for_c(
        net, number, place, second, units, expansions, tests, width, path, out,
    )
}
