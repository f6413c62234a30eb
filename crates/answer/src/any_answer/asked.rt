//! The question put to words.
ghost use Rattle.std.specs.Prelude.{◌≡◌};
ghost use Rattle.snapshot.specs.Limits.{area_limit};
ghost use Rattle.answer.specs.any_answer.Any.{any_report, told};

use crate::any_answer::AnyReport;
use crate::any_answer::report::{AnyOutcome, reported, without};
use crate::checked::faults::{call_fault, question_fault};
use accept::check::check;
use accept::opened::Snapshot;
use find_path_spec::Query;
use hir_def::View;
use hir_def::items::item_of;
use snapshot::ids::Area;
use snapshot::records::Records;
use snapshot::refusal::Refusal;
use told_paths::shortest_paths::shortest::shortest;
use told_paths::told_routes::routes::route_of;

/// What was found, or why the question is refused.
pub(crate) fn answered(words: &[u32], area: &mut Area, q: Query) -> Result<AnyReport, Refusal>
    ensures { told result ≡ any_report words.now area_limit q }
{
    call_fault(q, 0)?;
    let layout = check(words, area)?;
    let records = Records { words, layout };
    question_fault(&records, q)?;
    let item = item_of(&records, q.ns, q.definition);
    let Some(t) = shortest(&records, area, q.from, item) else {
        return Ok(without(AnyOutcome::Nowhere, 0));
    };
    let db = Snapshot { records, area };
    let view = View { db, from: q.from };
    let route = route_of(&view, q.ns, t);
    Ok(reported(t, route))
}
