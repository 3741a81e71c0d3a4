// Writes the records of routes that were judged into a slice that is long enough.
ghost use Rattle.std.specs.Prelude.{◌≡◌, ◌++◌, ◌+◌, ◌*◌, ◌≤◌, length, take, drop};
ghost use Rattle.tracks.specs.Kind.{code_of};
ghost use Rattle.tracks.specs.Tracks.{net_records};
ghost use Rattle.tracks.specs.Layout.{points_at, slices};
ghost use Rattle.tracks.specs.Answers.{laid, file_for};
ghost use Rattle.tracks.specs.Inner.{records_for};
ghost use Rattle.laying.specs.Inner.{bytes_for, Fitting};

use records::RECORD;
use tally::inner::records_for;
use tracks::Kind;

// Writes record i: of a net with no path, place, x and y are 0.
fn put_record(file: &mut [u8], i: usize, kind: Kind, net: u8, place: usize, x: u8, y: u8)
    requires { i * 8 + 8 ≤ length file.old }
    ensures { file.new ≡ take (i * 8) file.old ++ (bytes_for (code_of kind) net place x y ++ drop (i * 8 + 8) file.old) }
{
    let at = i * RECORD;
    let [low, high, ..] = place.to_le_bytes();
    let record = [u8::from(kind), net, low, high, x, y, 0, 0];
    file[at..at + RECORD].copy_from_slice(&record);
}

// Writes the records of one net from record `at` on: of a point for each x and y, or of no path where there is none.
fn lay_net(net: u8, xs: &[u8], ys: &[u8], file: &mut [u8], at: usize)
    requires same_count { length xs.now ≡ length ys.now }
    requires room { (at + records_for (length xs.now)) * 8 ≤ length file.old }
    ensures { file.new ≡ laid (take (at * 8) file.old ++ net_records net (points_at xs.now ys.now 0 (length xs.now))) file.old }
{
    if xs.is_empty() {
        put_record(file, at, Kind::NoPath, net, 0, 0, 0);
        return;
    }
    for (place, (x, y)) in xs.iter().zip(ys).enumerate() {
        put_record(file, at + place, Kind::Point, net, place, *x, *y);
    }
}

// Writes the records of all nets.
pub fn lay_routes(nets: &[u8], counts: &[usize], xs: &[u8], ys: &[u8], file: &mut [u8])
    requires { Fitting (slices nets.now counts.now xs.now ys.now) (length file.old) }
    ensures { file.new ≡ laid (file_for (slices nets.now counts.now xs.now ys.now)) file.old }
{
    let mut at = 0;
    let mut from = 0;
    for (net, count) in nets.iter().zip(counts) {
        let end = from + *count;
        lay_net(*net, &xs[from..end], &ys[from..end], file, at);
        at += records_for(*count);
        from = end;
    }
}
