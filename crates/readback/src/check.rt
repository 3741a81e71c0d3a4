// Judges the records of a route file in order: 11, then in each record 13, 23 and 22.
ghost use Rattle.readback.specs.Inner.{Checked};

use records::RECORD;
use scan::Progress;
use scan::inner::judge;
use tracks::RouteRefusal;

// Checks a whole route file.
pub fn check_routes(file: &[u8]) -> Result<Progress, RouteRefusal>
    ensures { Checked file.now result }
{
    if file.len() % RECORD != 0 {
        return Err(RouteRefusal::Uneven);
    }
    let mut past = Progress::default();
    for i in 0..file.len() / RECORD {
        past = judge(file, i, past)?;
    }
    Ok(past)
}
