//! The entry point.
ghost use Rattle.answer.specs.any_answer.Any.{AnyAnswers};

use crate::any_answer::AnyReport;
use crate::any_answer::asked::answered;
use crate::any_answer::report::refused;
use crate::area::in_front;
use find_path_spec::Query;
use snapshot::ids::{DefinitionId, ModuleId, PathLen};

/// Whether any path names the definition, in the namespace, in the module, on the words of a snapshot: a shortest one where it has at most
/// sixteen names. The work area is left as `find_path` leaves it.
// `ns` is a namespace and no length: each slice has its own.
pub fn any_path(
    words: &[u32],
    area: &mut [u32],
    ns: usize,
    definition: usize,
    from: usize,
) -> AnyReport
    ensures { AnyAnswers words.now area.old ns definition from area.new result }
{
    let q = Query {
        ns: ns,
        definition: DefinitionId(definition),
        from: ModuleId(from),
        prefix: 0,
        options: 0,
        limit: PathLen::LIMIT,
    };
    in_front(area, |front| answered(words, front, q)).unwrap_or_else(refused)
}
