//! Several questions.
ghost use Rattle.std.specs.Prelude.{◌≡◌, ◌*◌, ◌/◌, ◌≤◌, Ok, length};
ghost use Rattle.snapshot.specs.Limits.{area_limit};
ghost use Rattle.snapshot.specs.Sizes.{question_size};
ghost use Rattle.reports.specs.Written.{report_size};
ghost use Rattle.answer.specs.batch.Batch.{reports_to};
ghost use Rattle.snapshot.specs.Refusals.{fault_number};
ghost use Rattle.accept.specs.Post.{Judged};
ghost use Rattle.answer.specs.asked.Asked.{AskedEach};
ghost use Rattle.answer.specs.asked.StillChecked.{StillChecked};

use crate::asked::layout::layout_of;
use crate::batch::each::report_each;
use reports::questions::fits::fits;
use snapshot::ids::Area;
use snapshot::layout::Layout;
use snapshot::refusal::Refusal;

// The reports on accepted words.
fn report_front(words: &[u32], area: &mut Area, l: Layout, questions: &[u32], reports: &mut [u32])
    requires { Judged words.now area.old (Ok l) × (report_size * (length questions.now / question_size) ≤ length reports.old) }
    ensures reports_after { reports.new ≡ reports_to words.now questions.now reports.old }
    ensures judged { Judged words.now area.new (Ok l) }
    ensures long { length area.new ≡ area_limit }
{
    report_each(words, area, Ok(l), questions, reports);
}

/// Writes the reports of up to 64 questions on words that an earlier call accepted, as `find_path_checked` gives each, one after the other.
/// Or answers why none is written: 44 for too many questions, a part of one, or too few words for the reports.
pub fn find_paths_checked(
    words: &[u32],
    area: &mut [u32],
    counts: &[usize; 14],
    questions: &[u32],
    reports: &mut [u32],
) -> Result<(), Refusal>
    requires { StillChecked words.now area.old counts.now }
    ensures { AskedEach words.now area.old counts.now questions.now
        reports.old area.new reports.new (fault_number result) }
{
    if !fits(questions.len(), reports.len()) {
        return Err(Refusal::Batch);
    }
    // As in `find_path_checked`: it refuses none.
    let Some(front) = area.first_chunk_mut() else {
        return Err(Refusal::Area);
    };
    let l = layout_of(words.len(), counts);
    report_front(words, front, l, questions, reports);
    Ok(())
}
