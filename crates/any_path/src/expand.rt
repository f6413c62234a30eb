//! A row taken up: the modules that one name more means.
ghost use Rattle.std.specs.Prelude.{◌≡◌, ◌<◌};
ghost use Rattle.snapshot.specs.Records.{scope_at};
ghost use Rattle.snapshot.specs.Laid.{snap_by};
ghost use Rattle.accept.specs.Post.{Reads};
ghost use Rattle.check_records.specs.record_rules.Stands.{counts_in};
ghost use Rattle.accept.specs.Valid.{ScopeFits};
ghost use Rattle.accept.specs.Opened.{snap_in};
ghost use Rattle.hir_def.specs.Items.{types};
ghost use Rattle.nameable.specs.Breadth.{added};
ghost use Rattle.nameable.specs.Queue.{paths_after};
ghost use Rattle.any_path.specs.Rows.{way_at, run_at, Run, Grown, leads_on, with_entry, Meant};

use crate::rows::{Row, offer};
use crate::seen_entries::entries::seen;
use accept::opened::Snapshot;
use hir_def::View;
use hir_def::item_scope::is_module_entry;
use hir_def::items::first_of;
use snapshot::ids::ModuleId;
use snapshot::kind::Size;
use snapshot::reading::word;
use snapshot::record::{scope_definition, scope_name};
use snapshot::records::Records;

// Whether the entry with its head at a place leads on from the module to another.
pub(crate) fn leads_on(view: &View, m: ModuleId, h: usize) -> bool
    requires { ScopeFits (counts_in view.now.db.records.layout) (scope_at view.now.db.records.words.now h) }
    ensures { result ≡ leads_on (snap_in view.now.db) view.now.from.0 m.0 (scope_at view.now.db.records.words.now h) }
{
    if is_module_entry(&view.db.records, h, m) {
        return seen(view, h);
    }
    false
}

// The entry with its head at a place, after the row number i: a row more, where it leads on to a module that has none.
fn offer_entry(
    records: &Records,
    area: &mut [u32],
    from: ModuleId,
    i: usize,
    n: usize,
    h: usize,
) -> usize
    requires { Reads records.now.words.now area.old records.now.layout × (from.0 < records.now.layout.modules)
        × ScopeFits (counts_in records.now.layout) (scope_at records.now.words.now h)
        × Run records.now.layout.modules area.old n × (i < n) }
    ensures { Grown records.now.layout.modules area.old n area.new result
        (with_entry (snap_by records.now area.old) from.0 (run_at area.old n)
        (way_at area.old i) (scope_at records.now.words.now h)) }
{
    let m = ModuleId(word(area, Row::BASE + Row::SIZE * i));
    let db = Snapshot {
        records: *records,
        area,
    };
    let view = View { db, from };
    if leads_on(&view, m, h) {
        let target = first_of(records, scope_definition(records.words, h));
        let name = scope_name(records.words, h);
        let row = Row {
            target,
            link: i + 3,
            name: name.0,
            place: h,
        };
        return offer(area, records.layout.modules, n, row);
    }
    n
}

// The row number i of n is taken up: a row more for each module without one that a name more after it means.
// The loop of `offer_scope` over another step: one of both would take a closure that writes the area, and its invariant as a clause.
pub(crate) fn expand(
    records: &Records,
    area: &mut [u32],
    from: ModuleId,
    i: usize,
    n: usize,
) -> usize
    requires { Reads records.now.words.now area.old records.now.layout × (from.0 < records.now.layout.modules)
        × Run records.now.layout.modules area.old n × (i < n)
        × Meant (snap_by records.now area.old) from.0 (way_at area.old i) }
    ensures { Grown records.now.layout.modules area.old n area.new result
        (added (snap_by records.now area.old) from.0 (run_at area.old n)
        (paths_after (snap_by records.now area.old) from.0 types (way_at area.old i))) }
{
    // `base + size * k` as in a `Span`: a method for it would be this sum under a name.
    let base = records.layout.scope_base();
    let scopes = records.layout.scopes;
    let mut count = n;
    for k in 0..scopes {
        count = offer_entry(records, area, from, i, count, base + Size::SCOPE * k);
    }
    count
}
