// Calls for the crates above.
ghost use Rattle.std.specs.Prelude.{◌≡◌};
ghost use Rattle.netlist.specs.Inner.{net_in, net_place, net_said};

use kinds::inner::{is_net, record_at};
use kinds::{Net, Record, RecordFault};
use records::RECORD;

// The record of the net with that index, if there is one.
fn net_record(job: &[u8], index: usize) -> Option<usize>
    ensures { result ≡ net_place job.now index }
{
    (0..job.len() / RECORD)
        .filter(|i| is_net(job, *i))
        .nth(index)
}

// What the net with that index, counted from 0, says; where there is none, as a record of unknown type does.
pub fn net_said(job: &[u8], index: usize) -> Result<Record, RecordFault>
    ensures { result ≡ net_said job.now index }
{
    match net_record(job, index) {
        Some(i) => record_at(job, i),
        None => Err(RecordFault::Unknown),
    }
}

// The net with that index, if there is one.
pub fn find_net(job: &[u8], index: usize) -> Option<Net>
    ensures { result ≡ net_in (net_said job.now index) }
{
    match net_said(job, index) {
        Ok(Record::Net(net)) => Some(net),
        _ => None,
    }
}
