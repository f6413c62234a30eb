//! The questions one after the other, on words that are checked once.
ghost use Rattle.std.specs.Prelude.{◌≡◌, ◌*◌, ◌/◌, ◌≤◌, length};
ghost use Rattle.reports.specs.Written.{report_size};
ghost use Rattle.snapshot.specs.Sizes.{question_size};
ghost use Rattle.accept.specs.Post.{Judged};
ghost use Rattle.answer.specs.batch.Batch.{reports_to};

use crate::checked::report_on;
use accept::check::Refused;
use reports::questions::question::question_of;
use reports::{ReportWords, write_report};
use snapshot::ids::Area;
use snapshot::kind::Size;
use snapshot::layout::Layout;

/// Writes the report of each question on checked words, which stay so.
// By `size * i`: the library's `as_chunks_mut` says nothing of what its slice ends as, and the reports are just that.
pub fn report_each(
    words: &[u32],
    area: &mut Area,
    c: Result<Layout, Refused>,
    questions: &[u32],
    reports: &mut [u32],
)
    requires { Judged words.now area.old c × (report_size * (length questions.now / question_size) ≤ length reports.old) }
    ensures reports_after { reports.new ≡ reports_to words.now questions.now reports.old }
    ensures judged { Judged words.now area.new c }
{
    let n = questions.len() / Size::QUESTION;
    for i in 0..n {
        let from = Size::QUESTION * i;
        let r = report_on(words, area, c, question_of(&questions[from..]));
        let to = ReportWords::COUNT * i;
        write_report(r, &mut reports[to..]);
    }
}
