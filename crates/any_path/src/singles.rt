//! The modules that `::` and a name mean.
ghost use Rattle.std.specs.Prelude.{false, ◌<◌};
ghost use Rattle.snapshot.specs.Records.{extern_at};
ghost use Rattle.snapshot.specs.Laid.{snap_by};
ghost use Rattle.accept.specs.Post.{Reads};
ghost use Rattle.check_records.specs.record_rules.Stands.{counts_in};
ghost use Rattle.accept.specs.Valid.{ExternFits};
ghost use Rattle.hir_def.specs.Items.{types};
ghost use Rattle.nameable.specs.Breadth.{added, single};
ghost use Rattle.any_path.specs.Rows.{run_at, Run, Grown, with_extern};

use crate::rows::{Row, offer};
use accept::opened::Snapshot;
use hir_def::items::edition_of;
use module_tree::modules::krate;
use snapshot::ids::{Crate, ModuleId};
use snapshot::kind::Size;
use snapshot::record::{extern_name, extern_owner, extern_target};
use snapshot::records::Records;

// The extern with its head at a place, if it is one of the crate's.
fn offer_extern(records: &Records, area: &mut [u32], c: Crate, n: usize, h: usize) -> usize
    requires { Reads records.now.words.now area.old records.now.layout
        × ExternFits (counts_in records.now.layout) (extern_at records.now.words.now h) × Run records.now.layout.modules area.old n }
    ensures { Grown records.now.layout.modules area.old n area.new result (with_extern c.0 (run_at area.old n)
        (extern_at records.now.words.now h)) }
{
    if extern_owner(records.words, h) != c {
        return n;
    }
    let target = extern_target(records.words, h);
    let name = extern_name(records.words, h);
    let row = Row {
        target: target.0,
        link: 1,
        name: name.0,
        place: h,
    };
    offer(area, records.layout.modules, n, row)
}

// The externs of the viewer's crate by `::` and a name, none in edition 2015.
// The loop of `firsts::offer_externs` over another step, which writes the area: a closure for it would have the invariant of the fold as a clause.
pub(crate) fn offer_absolutes(
    records: &Records,
    area: &mut [u32],
    from: ModuleId,
    n: usize,
) -> usize
    requires { Reads records.now.words.now area.old records.now.layout × (from.0 < records.now.layout.modules)
        × Run records.now.layout.modules area.old n }
    ensures { Grown records.now.layout.modules area.old n area.new result
        (added (snap_by records.now area.old) from.0 (run_at area.old n)
        (single false (snap_by records.now area.old) from.0 types)) }
{
    let db = Snapshot {
        records: *records,
        area,
    };
    let c = krate(&db, from);
    if edition_of(records, c) == 2015 {
        return n;
    }
    // `base + size * k` as in a `Span`: a method for it would be this sum under a name.
    let base = records.layout.extern_base();
    let externs = records.layout.externs;
    let mut count = n;
    for k in 0..externs {
        count = offer_extern(records, area, c, count, base + Size::EXTERN * k);
    }
    count
}
