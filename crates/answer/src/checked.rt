//! Questions put to words that were checked: what a caller is refused for, the report, and its line.

ghost use Rattle.std.specs.Prelude.{◌≡◌, length, take};
ghost use Rattle.snapshot.specs.Limits.{area_limit};
ghost use Rattle.snapshot.specs.Laid.{snap_by};
ghost use Rattle.snapshot.specs.Layouts.{table_words};
ghost use Rattle.accept.specs.Post.{Judged, Reads};
ghost use Rattle.find_path_spec.specs.Report.{call_fault, question_fault, answer_unless};
ghost use Rattle.answer.specs.checked.Questioned.{Questioned, told};

pub mod faults;
pub mod found;
pub mod lines;

use crate::checked::faults::{call_fault, question_fault};
use crate::checked::found::report_in;
use accept::check::Refused;
use find_path_spec::{Question, Report};
use reports::refused;
use snapshot::ids::Area;
use snapshot::layout::Layout;
use snapshot::records::Records;
use snapshot::refusal::Refusal;

/// The report of a search on accepted words, for a question without a fault of the call, or why the question is refused: by 23 or 24.
pub(crate) fn answer_on(
    records: &Records,
    area: &mut Area,
    question: Question,
) -> Result<Report, Refusal>
    requires { Reads records.now.words.now area.old records.now.layout × (0 ≡ call_fault area_limit question.query question.fuel) }
    ensures value { told result ≡ answer_unless (snap_by records.now area.old) question.query question.fuel
        (question_fault (snap_by records.now area.old) question.query) }
    ensures area_unchanged { take table_words area.new ≡ take table_words area.old }
{
    let q = question.query;
    question_fault(records, q)?;
    Ok(report_in(records, area, q, question.fuel))
}

// The report, or why the question is refused: 21, 22 and 46 come before what the check says, 23 and 24 after it.
fn answered(
    words: &[u32],
    area: &mut Area,
    c: Result<Layout, Refused>,
    question: Question,
) -> Result<Report, Refusal>
    requires { Judged words.now area.old c }
    ensures { Questioned words.now question c area.new (told result) }
{
    call_fault(question.query, question.fuel)?;
    let layout = c?;
    answer_on(&Records { words, layout }, area, question)
}

/// The answer to a question on checked words, which stay so: the next question can follow.
pub fn report_on(
    words: &[u32],
    area: &mut Area,
    c: Result<Layout, Refused>,
    question: Question,
) -> Report
    requires { Judged words.now area.old c }
    ensures { Questioned words.now question c area.new result }
{
    answered(words, area, c, question).unwrap_or_else(|why| refused(why.number()))
}
