// Calls for the crates above: the records in order, each judged by what was read before it.
ghost use Rattle.std.specs.Prelude.{◌≡◌, ◌≤◌, ◌<◌, length};
ghost use Rattle.records.specs.Records.{records};
ghost use Rattle.kinds.specs.Job.{longest_job};
ghost use Rattle.steps.specs.Steps.{handed_step};
ghost use Rattle.faults.specs.Inner.{progress, record_step, job_step};

use crate::LONGEST;
use kinds::inner::record_at;
use kinds::{Record, RecordFault};
use records::RECORD;
use refusals::JobRefusal;
use steps::Progress;
use steps::inner::{board_step, keepout_step, net_step};

// Judges record i: 13, 23, 12, 18, then 14, 15, or 17 before 16.
fn judge(job: &[u8], i: usize, past: Progress) -> Result<Progress, JobRefusal>
    requires job_len_bound { (length job.now ≤ longest_job) × (i < records job.now) }
    requires past_value { past ≡ progress job.now i }
    ensures { handed_step result ≡ record_step job.now i }
{
    match record_at(job, i) {
        Ok(Record::Board { width, height }) => board_step(i, width, height),
        Ok(Record::Keepout(cells)) => keepout_step(past, i, cells),
        Ok(Record::Net(net)) => net_step(past, i, net),
        Err(RecordFault::Unknown) => Err(JobRefusal::Unknown(i)),
        Err(RecordFault::Unused(k)) => Err(JobRefusal::Unused { record: i, byte: k }),
    }
}

// Checks a whole job: 10, 11, then the records in order; a job with no record has no board.
#[tactic(auto, unfolding(crate::specs::Inner::job_step, crate::specs::Faults::job_rows))]
pub fn check_job(job: &[u8]) -> Result<Progress, JobRefusal>
    ensures { handed_step result ≡ job_step job.now }
{
    if LONGEST < job.len() {
        return Err(JobRefusal::Long);
    }
    if job.len() % RECORD != 0 {
        return Err(JobRefusal::Uneven);
    }
    let count = job.len() / RECORD;
    if count == 0 {
        return Err(JobRefusal::Order(0));
    }
    let mut past = Progress {
        width: 0,
        height: 0,
        last: 0,
        nets: 0,
    };
    for i in 0..count {
        past = judge(job, i, past)?;
    }
    Ok(past)
}
