//! An answer that is a count or a refusal, as the two numbers that C gets of it.

ghost use Rattle.std.specs.Prelude.{◌≡◌};
ghost use Rattle.answer.specs.counts.Counts.{told};

use snapshot::refusal::Refusal;

/// Writes the new count, which stays after a refusal, and answers the number of the refusal, 0 for none.
// `reach::parts::tell::tell_reach` is no twin: it writes zeros after a refusal.
pub fn tell(answer: Result<usize, Refusal>, count: &mut usize) -> usize
    ensures { told count.old answer ≡ record { number = result; count = count.new } }
{
    match answer {
        Ok(new) => {
            *count = new;
            0
        }
        Err(why) => why.number(),
    }
}
