//! A reach or a refusal, as what C gets of it.
ghost use Rattle.std.specs.Prelude.{◌≡◌};
ghost use Rattle.reach.specs.parts.Reach.{told};

use crate::parts::Reach;
use snapshot::refusal::Refusal;

/// Writes the counts, all zero for a refusal, and answers the number of the refusal, 0 for none.
#[tactic(auto, unfolding(crate::specs::parts::Reach::refused_reach))]
pub fn tell_reach(answer: Result<Reach, Refusal>, counts: &mut [usize; 21]) -> usize
    ensures { told answer ≡ record { number = result; counts = counts.new } }
{
    match answer {
        Ok(reach) => {
            let found = reach.counts;
            *counts = found;
            0
        }
        Err(why) => {
            *counts = [0; 21];
            why.number()
        }
    }
}
