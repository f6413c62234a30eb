//! The reach of a module, put to words that nobody checked yet.

ghost use Rattle.std.specs.Prelude.{◌≡◌};
ghost use Rattle.snapshot.specs.Limits.{area_limit};
ghost use Rattle.reach.specs.parts.Reach.{reach_of, told};
ghost use Rattle.reach.specs.unchecked.Reaches.{Reaches};

use crate::parts::{Reach, Viewer};
use crate::reach_on;
use accept::check::check;
use answer::area::in_front;
use snapshot::ids::Area;
use snapshot::refusal::Refusal;

// Checks the words, and counts.
fn reach_checked(words: &[u32], area: &mut Area, v: Viewer) -> Result<Reach, Refusal>
    ensures { told result ≡ reach_of words.now area_limit v }
{
    let c = check(words, area);
    reach_on(words, area, c, v)
}

/// The reach of a module on the words of a snapshot, or why it is refused. The work area is left as `find_path` leaves it.
pub fn find_reach(words: &[u32], area: &mut [u32], v: Viewer) -> Result<Reach, Refusal>
    ensures { Reaches words.now area.old v area.new (told result) }
{
    in_front(area, |front| reach_checked(words, front, v))
}
