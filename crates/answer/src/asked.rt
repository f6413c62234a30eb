//! Questions put to words that an earlier call accepted, whose tables are still in the work area: no check, and nothing is cleared.
//! One question.

ghost use Rattle.std.specs.Prelude.{◌≡◌, Ok, length};
ghost use Rattle.snapshot.specs.Limits.{area_limit};
ghost use Rattle.accept.specs.Post.{Judged};
ghost use Rattle.answer.specs.checked.Questioned.{Questioned};
ghost use Rattle.answer.specs.asked.Asked.{Asked};
ghost use Rattle.answer.specs.asked.StillChecked.{StillChecked};

pub mod each;
mod layout;

use crate::asked::layout::layout_of;
use crate::checked::report_on;
use find_path_spec::{Question, Report};
use reports::refused;
use snapshot::ids::Area;
use snapshot::layout::Layout;
use snapshot::refusal::Refusal;

// The report on accepted words.
fn report_front(words: &[u32], area: &mut Area, l: Layout, question: Question) -> Report
    requires { Judged words.now area.old (Ok l) }
    ensures report { Questioned words.now question (Ok l) area.new result }
    ensures long { length area.new ≡ area_limit }
{
    report_on(words, area, Ok(l), question)
}

/// The report of a question on words that an earlier call accepted, by the numbers that their check wrote and the tables that it left: the one that
/// a call with a check gives. Words and tables stay for the next question.
pub fn find_path_checked(
    words: &[u32],
    area: &mut [u32],
    counts: &[usize; 14],
    question: Question,
) -> Report
    requires { StillChecked words.now area.old counts.now }
    ensures { Asked words.now area.old counts.now question area.new result }
{
    // Words that were accepted were checked in an area that serves, so this refuses none.
    let Some(front) = area.first_chunk_mut() else {
        return refused(Refusal::Area.number());
    };
    let l = layout_of(words.len(), counts);
    report_front(words, front, l, question)
}
