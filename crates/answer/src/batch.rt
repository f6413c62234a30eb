//! A file's worth of questions, with one snapshot.

ghost use Rattle.snapshot.specs.Refusals.{fault_number};
ghost use Rattle.answer.specs.batch.Batch.{Batch};

pub mod each;

use crate::area::clear;
use crate::batch::each::report_each;
use accept::check::check;
use reports::questions::fits::fits;
use snapshot::refusal::Refusal;

/// Answers up to 64 questions on the words of a snapshot, which are checked once, and writes their reports one after the other:
/// those that the questions get one at a time. Or answers why the whole call is refused: 20 a small work area,
/// 44 too many questions, a part of one, or too few words for the reports; the reports then stay unwritten. After every call
/// but one refused by 20 the first 16,384 words of the work area are zero.
pub fn find_paths(
    words: &[u32],
    area: &mut [u32],
    questions: &[u32],
    reports: &mut [u32],
) -> Result<(), Refusal>
    ensures { Batch words.now area.old questions.now reports.old area.new
        reports.new (fault_number result) }
{
    let Some(front) = area.first_chunk_mut() else {
        return Err(Refusal::Area);
    };
    if !fits(questions.len(), reports.len()) {
        clear(front);
        return Err(Refusal::Batch);
    }
    let c = check(words, front);
    report_each(words, front, c, questions, reports);
    clear(front);
    Ok(())
}
