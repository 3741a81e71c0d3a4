// Calls for the search, which say what they require. Each turn takes the first open vertex, until that is the goal or nothing is open.
ghost use Rattle.std.specs.Prelude.{◌≡◌, suc};
ghost use Rattle.reach.specs.Turns.{turns};
ghost use Rattle.theta.specs.Search.{basic};
ghost use Rattle.offers.specs.Request.{asked, size_of};
ghost use Rattle.theta.specs.Lent.{state, Begins};
ghost use Rattle.offers.specs.Offers.{ListedFor};

use crate::Outcome;
use board::Vertex;
use board::inner::number_of;
use offers::request::Request;
use taking::inner::expand;
use tournament::tree::first;

// All the turns. They end, for each but the last expands a vertex that was not expanded (`going_room`).
pub fn run(
    request: &Request<'_, '_>,
    g: &mut [u64],
    parents: &mut [Vertex],
    marks: &mut [u8],
    legs: &mut [Vertex],
    leads: &mut [Vertex],
    keys: &mut [u64],
) -> Outcome
    requires begins { Begins (asked request.now) (state g.old parents.old marks.old legs.old 0 0) }
    requires listed_for { ListedFor request.now g.old marks.old legs.old leads.old keys.old }
    ensures { turns (basic (asked request.now)) (suc (size_of request.now)) (state g.old parents.old marks.old legs.old 0 0) ≡ record { found = result.found; state = state g.new parents.new marks.new legs.new result.expansions result.tests } }
{
    let goal = number_of(request.guarded.board.width, request.gx, request.gy) as usize;
    let mut expansions: u64 = 0;
    let mut tests: u64 = 0;
    while let Some(leader) = first(leads, keys) {
        let v = leader.vertex;
        if v == goal {
            return Outcome {
                found: true,
                expansions,
                tests,
            };
        }
        expansions += 1;
        tests = expand(request, v, tests, g, parents, marks, legs, leads, keys);
    }
    Outcome {
        found: false,
        expansions,
        tests,
    }
}
