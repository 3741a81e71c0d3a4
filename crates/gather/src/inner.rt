// Writes the routes of a file that passed into slices that are long enough: from the last record to the first.
ghost use Rattle.std.specs.Prelude.{◌≡◌, ◌≤◌, ◌<◌, length};
ghost use Rattle.laws.specs.Below.{as_number};
ghost use Rattle.records.specs.Records.{records, byte};
ghost use Rattle.tracks.specs.Layout.{slices};
ghost use Rattle.gather.specs.Inner.{goes_on, PointTaken, NetTaken, NetRoom, Room, Gathered};

use places::inner::{byte_at, is_point};
use records::RECORD;
use tracks::Sizes;

// Whether a point of this net belongs to net k, if there is one.
fn goes_on(nets: &[u8], count: usize, k: usize, net: u8, point: bool) -> bool
    requires { count ≤ length nets.now }
    ensures { result ≡ goes_on nets.now count k net point }
{
    k < count && point && net == nets[k]
}

// The point of record i, if it is one, before point j; answers the first point.
fn take_point(file: &[u8], i: usize, point: bool, xs: &mut [u8], ys: &mut [u8], j: usize) -> usize
    requires i_bound { i < records file.now }
    requires point_bound { (as_number point ≤ j) × (j ≤ length xs.old) × (j ≤ length ys.old) }
    ensures { PointTaken (byte file.now i 4) (byte file.now i 5) point j xs.old ys.old result xs.new ys.new }
{
    if !point {
        return j;
    }
    xs[j - 1] = byte_at(file, i, 4);
    ys[j - 1] = byte_at(file, i, 5);
    j - 1
}

// A record of this net before net k, of which it is one point more, or a net of its own; answers the first net.
fn take_net(
    nets: &mut [u8],
    counts: &mut [usize],
    count: usize,
    k: usize,
    net: u8,
    point: bool,
) -> usize
    requires { NetRoom nets.old counts.old count k net point }
    ensures { NetTaken count k net point nets.old counts.old result nets.new counts.new }
{
    if goes_on(nets, count, k, net, point) {
        counts[k] += 1;
        return k;
    }
    nets[k - 1] = net;
    counts[k - 1] = usize::from(point);
    k - 1
}

// The routes of the file.
pub fn gather(
    file: &[u8],
    nets: &mut [u8],
    counts: &mut [usize],
    xs: &mut [u8],
    ys: &mut [u8],
    sizes: Sizes,
)
    requires { Room file.now (slices nets.old counts.old xs.old ys.old) sizes.nets sizes.points }
    ensures { Gathered file.now (slices nets.old counts.old xs.old ys.old) (slices nets.new counts.new xs.new ys.new) }
{
    let mut k = sizes.nets;
    let mut j = sizes.points;
    for i in (0..file.len() / RECORD).rev() {
        let point = is_point(file, i);
        let net = byte_at(file, i, 1);
        j = take_point(file, i, point, xs, ys, j);
        k = take_net(nets, counts, sizes.nets, k, net, point);
    }
}
