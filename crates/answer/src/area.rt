//! The work area of a call, and what is left of it.
ghost use Rattle.std.specs.Prelude.{◌≡◌, ◌<◌, ◌≤◌, List, ℕ, Err, length, take};
ghost use Rattle.std.specs.Fn.{FnOnceReturnsAtMut};
ghost use Rattle.snapshot.specs.Limits.{area_limit};
ghost use Rattle.snapshot.specs.declared.refusal.Refusal.TheVariants.{Area};
ghost use Rattle.answer.specs.Answers.{zeros, area_after};

use snapshot::ids::Area;
use snapshot::refusal::Refusal;

/// Sets every word to zero.
pub fn clear(area: &mut [u32])
    ensures { area.new ≡ zeros (length area.old) }
{
    area.fill(0);
}

/// Sets the first 16,384 words to zero, as every call that is not refused by 20 leaves them; a smaller area stays.
pub fn clear_front(area: &mut [u32])
    ensures { area.new ≡ area_after area.old }
{
    let front: Option<&mut Area> = area.first_chunk_mut();
    if let Some(front) = front {
        clear(front);
    }
}

/// Has work done in the first 16,384 words, which are zero after it. A smaller area stays, and the work is refused.
// Calls that write to a target too have these three steps in their own bodies: of a `&mut` that a closure captures, a call by value tells nothing.
pub fn in_front<T, F: FnOnce(&mut Area) -> Result<T, Refusal>>(
    area: &mut [u32],
    work: F,
) -> Result<T, Refusal>
    requires { F.IsAlwaysCallable work }
    ensures cleared { area.new ≡ area_after area.old }
    ensures small { length area.old < area_limit → result ≡ Err Area }
    ensures done { area_limit ≤ length area.old
        → (left : List ℕ) × FnOnceReturnsAtMut F.FnOnce work (take area_limit area.old) result left }
{
    let Some(front) = area.first_chunk_mut() else {
        return Err(Refusal::Area);
    };
    let r = work(front);
    clear(front);
    r
}
