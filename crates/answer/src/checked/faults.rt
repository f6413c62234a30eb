//! What a caller may be refused for, in order.
ghost use Rattle.std.specs.Prelude.{◌≡◌, List, ℕ, ◌<◌};
ghost use Rattle.snapshot.specs.Limits.{area_limit};
ghost use Rattle.snapshot.specs.Refusals.{fault_number};
ghost use Rattle.snapshot.specs.Laid.{snap_by};
ghost use Rattle.find_path_spec.specs.Report.{call_fault, question_fault};

use find_path_spec::Query;
use hir_def::items::known_kind_of;
use snapshot::ids::{DefinitionKind, Fuel, Namespace, Options, PathLen, Prefix};
use snapshot::records::Records;
use snapshot::refusal::Refusal;

/// The first fault that needs no snapshot, with a work area that serves: 21 too much fuel, 22 a field out of range, 46 a limit out of range.
pub fn call_fault(q: Query, fuel: usize) -> Result<(), Refusal>
    ensures { fault_number result ≡ call_fault area_limit q fuel }
{
    if Fuel::LIMIT < fuel {
        return Err(Refusal::Fuel);
    }
    let field = (Namespace::LIMIT < q.ns)
        | ((Prefix::LIMIT < q.prefix) | (Options::LIMIT < q.options));
    let limit = (q.limit == 0) | (PathLen::LIMIT < q.limit);
    if field {
        return Err(Refusal::Field);
    }
    if limit {
        return Err(Refusal::Limit);
    }
    Ok(())
}

/// The first fault that needs one: 23 no such definition or module, 24 a macro that is none.
pub fn question_fault(records: &Records, q: Query) -> Result<(), Refusal>
    ensures { (A : List ℕ) → fault_number result ≡ question_fault (snap_by records.now A) q }
{
    let unknown = !((q.definition.0 < records.layout.definitions)
        & (q.from.0 < records.layout.modules));
    let kind = known_kind_of(records, q.definition);
    let misfit = (q.ns == Namespace::MACROS) & (kind != Some(DefinitionKind::Macro));
    if unknown {
        return Err(Refusal::Unknown);
    }
    if misfit {
        return Err(Refusal::Macro);
    }
    Ok(())
}
