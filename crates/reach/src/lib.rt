//! How much can be named from a module: the tally, its line, and the entry point.
//! Uses the entry points of `answer`.
#![tactic(auto)]

ghost use Rattle.accept.specs.Post.{Judged};
ghost use Rattle.reach.specs.parts.Reach.{told};
ghost use Rattle.reach.specs.Reached.{Reached};

pub mod counts;
pub mod lines;
pub mod one_line;
pub mod parts;
pub mod unchecked;

use crate::counts::reach_in;
use crate::parts::{Reach, Viewer};
use accept::check::Refused;
use answer::checked::faults::call_fault;
use snapshot::ids::{Area, DefinitionId};
use snapshot::layout::Layout;
use snapshot::records::Records;
use snapshot::refusal::Refusal;

/// The reach of a module on checked words, which stay so, or why it is refused.
pub fn reach_on(
    words: &[u32],
    area: &mut Area,
    c: Result<Layout, Refused>,
    v: Viewer,
) -> Result<Reach, Refusal>
    requires { Judged words.now area.old c }
    ensures { Reached words.now v c area.new (told result) }
{
    // What a call is refused for is the same for each item.
    call_fault(v.query_for(0, DefinitionId(0)), v.fuel)?;
    let layout = c?;
    if layout.modules <= v.from.0 {
        return Err(Refusal::Unknown);
    }
    Ok(reach_in(&Records { words, layout }, area, v))
}
