// What C gets of the check of the bureau's routes, as include/wexxolin.h declares it.
#![tactic(auto)]

ghost use Rattle.std.specs.Prelude.{◌≡◌};
ghost use Rattle.bureau.specs.Answers.{handed_check};
ghost use Rattle.approval.specs.Approval.{told_check};

use board::Numbered;
use bureau::CheckRefusal;

// How many nets are right, or what is refused.
#[repr(C)]
#[derive(Clone, Copy)]
pub struct Approval {
    pub number: u64,
    pub place: u64,
    pub second: u64,
    pub nets: u64,
}

// What C gets of an answer.
impl From<Result<usize, CheckRefusal>> for Approval {
    ghost from_gives = { λ answer told. told ≡ told_check (handed_check answer) };

    fn from(answer: Result<usize, CheckRefusal>) -> Approval {
        match answer {
            Ok(nets) => Approval {
                number: 0,
                place: 0,
                second: 0,
                nets: nets as u64,
            },
            Err(why) => {
                let row = why.row();
                Approval {
                    number: row.number,
                    place: row.place as u64,
                    second: row.second as u64,
                    nets: 0,
                }
            }
        }
    }
}
