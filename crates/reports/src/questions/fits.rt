//! How many questions go in at once.
ghost use Rattle.std.specs.Prelude.{◌≡◌};
ghost use Rattle.reports.specs.questions.Fits.{batch_fits};

use crate::ReportWords;
use snapshot::kind::Size;

/// A number of questions.
#[derive(Clone, Copy)]
pub struct QuestionCount;

impl QuestionCount {
    /// Questions of a call, at most.
    pub const LIMIT: usize = 64;
}

/// Whether so many words are whole questions, not too many, and there are words enough for their reports.
pub fn fits(questions: usize, reports: usize) -> bool
    ensures { result ≡ batch_fits questions reports }
{
    let count = questions / Size::QUESTION;
    if QuestionCount::LIMIT < count {
        return false;
    }
    (questions % Size::QUESTION == 0) & (ReportWords::COUNT * count <= reports)
}
