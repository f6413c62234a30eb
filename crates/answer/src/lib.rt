//! The entry points: questions put to the words of a snapshot, with a work area, and their reports or lines. None asks anything of its caller.
//! Uses the check, the search, the reports and the lines.
#![tactic(auto)]

ghost use Rattle.std.specs.Prelude.{◌≡◌};
ghost use Rattle.snapshot.specs.Limits.{area_limit};
ghost use Rattle.find_path_spec.specs.Report.{report_of};
ghost use Rattle.answer.specs.Answers.{Answers};
ghost use Rattle.answer.specs.checked.Questioned.{told};

pub mod any_answer;
pub mod area;
pub mod asked;
pub mod batch;
pub mod checked;
pub mod counts;
pub mod lines;
pub mod twice;

use crate::area::in_front;
use crate::checked::answer_on;
use crate::checked::faults::call_fault;
use accept::check::check;
use find_path_spec::{Question, Report};
use reports::refused;
use snapshot::ids::Area;
use snapshot::records::Records;
use snapshot::refusal::Refusal;

// The report, or why the question is refused: 21, 22 and 46 before the words are checked, 23 and 24 after it.
fn answered(words: &[u32], area: &mut Area, question: Question) -> Result<Report, Refusal>
    ensures { told result ≡ report_of words.now area_limit question }
{
    call_fault(question.query, question.fuel)?;
    let layout = check(words, area)?;
    answer_on(&Records { words, layout }, area, question)
}

/// The report of a question on the words of a snapshot. A work area of 16,384 words or more is cleared in its first 16,384 words
/// and otherwise left; a smaller one is refused and left.
pub fn find_path(words: &[u32], area: &mut [u32], question: Question) -> Report
    ensures { Answers words.now area.old question area.new result }
{
    let r = in_front(area, |front| answered(words, front, question));
    r.unwrap_or_else(|why| refused(why.number()))
}
