// A call for the crates above.
ghost use Rattle.std.specs.Prelude.{◌≡◌, ◌&&◌, ◌<◌, eqb};
ghost use Rattle.records.specs.Records.{records};
ghost use Rattle.kinds.specs.Job.{is_net, net_at};
ghost use Rattle.tracks.specs.Tracks.{routes_in};
ghost use Rattle.bureau.specs.Nets.{in_job, in_routes, is_odd, net_numbers, odd_net};
ghost use Rattle.bureau.specs.Inner.{place_before};

use kinds::inner::is_net;
use records::RECORD;
use records::inner::byte_of;
use runs::inner::first_record;

// The net numbers are those of a byte.
const NUMBERS: usize = 256;

// Whether record i of the job is a net with this number.
fn is_net_with(job: &[u8], i: usize, number: usize) -> bool
    requires { i < records job.now }
    ensures { result ≡ (is_net job.now i && eqb (net_at job.now i).number number) }
{
    is_net(job, i) && byte_of(job, i, 1) == number
}

// Whether the job has a net with this number.
fn is_in_job(job: &[u8], number: usize) -> bool
    ensures { result ≡ in_job job.now number }
{
    (0..job.len() / RECORD).any(|i| is_net_with(job, i, number))
}

// Whether the file has a route of the net with this number.
fn is_in_file(file: &[u8], number: usize) -> bool
    ensures { result ≡ in_routes (routes_in file.now) number }
{
    first_record(file, number).is_some()
}

// Whether only one of the two has a net with this number.
fn is_odd(job: &[u8], file: &[u8], number: usize) -> bool
    ensures { result ≡ is_odd job.now (routes_in file.now) number }
{
    let wanted = is_in_job(job, number);
    let given = is_in_file(file, number);
    (wanted & !given) | (!wanted & given)
}

// The lowest net that is in only one of the two, if there is one.
pub fn odd_net(job: &[u8], file: &[u8]) -> Option<usize>
    ensures { result ≡ place_before (odd_net job.now (routes_in file.now)) net_numbers }
{
    (0..NUMBERS).find(|number| is_odd(job, file, *number))
}
