//! The modules that one name alone means, in the order in which a name is looked up.
ghost use Rattle.std.specs.Prelude.{true, [], ◌∷◌, ◌<◌, eqb};
ghost use Rattle.snapshot.specs.Records.{scope_at, extern_at};
ghost use Rattle.snapshot.specs.Laid.{snap_by};
ghost use Rattle.accept.specs.Post.{Reads};
ghost use Rattle.check_records.specs.record_rules.Stands.{counts_in};
ghost use Rattle.accept.specs.Valid.{ScopeFits, ExternFits};
ghost use Rattle.module_tree.specs.rules.Modules.{map_no};
ghost use Rattle.hir_def.specs.Items.{types};
ghost use Rattle.hir_def.specs.Nameres.{prelude_of};
ghost use Rattle.nameable.specs.Paths.{plain, entries_in, externs_in, entries_over, scopes_from, prelude_entries};
ghost use Rattle.nameable.specs.Breadth.{added, single};
ghost use Rattle.any_path.specs.Rows.{run_at, Run, Grown, leads_on, name_if};
ghost use Rattle.any_path.specs.Plain.{names_alone};

use crate::expand::leads_on;
use crate::plain::{module_read, place_read, read_plain};
use crate::rows::{Row, offer};
use crate::seen_entries::privacy::block_step;
use accept::opened::Snapshot;
use hir_def::View;
use hir_def::crate_graph::prelude_of;
use module_tree::modules::{krate, map};
use snapshot::ids::{Crate, ModuleId, Name, Namespace};
use snapshot::kind::Size;
use snapshot::record::{extern_name, extern_owner, prelude_target, scope_name};
use snapshot::records::Records;

// The module that a name alone means.
fn offer_plain(records: &Records, area: &mut [u32], from: ModuleId, n: usize, name: Name) -> usize
    requires { Reads records.now.words.now area.old records.now.layout × (from.0 < records.now.layout.modules)
        × Run records.now.layout.modules area.old n × (name.0 < records.now.layout.names) }
    ensures { Grown records.now.layout.modules area.old n area.new result
        (added (snap_by records.now area.old) from.0 (run_at area.old n) (plain name.0 ∷ [])) }
{
    let db = Snapshot {
        records: *records,
        area,
    };
    let view = View { db, from };
    let r = read_plain(&view, Namespace::TYPES, name);
    let Some(m) = module_read(records, r) else {
        return n;
    };
    let row = Row {
        target: m.0,
        link: 2,
        name: name.0,
        place: place_read(r),
    };
    offer(area, records.layout.modules, n, row)
}

// The name of the entry with its head at a place, where it leads on from the module to another.
fn offer_lead(
    records: &Records,
    area: &mut [u32],
    from: ModuleId,
    m: ModuleId,
    n: usize,
    h: usize,
) -> usize
    requires { Reads records.now.words.now area.old records.now.layout × (from.0 < records.now.layout.modules)
        × ScopeFits (counts_in records.now.layout) (scope_at records.now.words.now h)
        × Run records.now.layout.modules area.old n }
    ensures { Grown records.now.layout.modules area.old n area.new result
        (name_if (snap_by records.now area.old) from.0 (run_at area.old n)
        (leads_on (snap_by records.now area.old) from.0 m.0 (scope_at records.now.words.now h))
        (scope_at records.now.words.now h).name) }
{
    let db = Snapshot {
        records: *records,
        area,
    };
    let view = View { db, from };
    if leads_on(&view, m, h) {
        return offer_plain(records, area, from, n, scope_name(records.words, h));
    }
    n
}

// The names of a module's entries that lead on.
// The step takes a module where that of `expand` takes a row, and another fold is proved of it; so each keeps its loop.
fn offer_scope(records: &Records, area: &mut [u32], from: ModuleId, m: ModuleId, n: usize) -> usize
    requires { Reads records.now.words.now area.old records.now.layout × (from.0 < records.now.layout.modules)
        × Run records.now.layout.modules area.old n }
    ensures { Grown records.now.layout.modules area.old n area.new result
        (added (snap_by records.now area.old) from.0 (run_at area.old n)
        (names_alone (entries_in (snap_by records.now area.old) from.0 types m.0))) }
{
    // `base + size * k` as in a `Span`: a method for it would be this sum under a name.
    let base = records.layout.scope_base();
    let scopes = records.layout.scopes;
    let mut count = n;
    for k in 0..scopes {
        count = offer_lead(records, area, from, m, count, base + Size::SCOPE * k);
    }
    count
}

// Those of the viewer's scope and of the scopes around its blocks.
// `loop`: it climbs out of blocks. `nearest` stops at the first that it finds, and here each scope is offered.
fn offer_scopes(records: &Records, area: &mut [u32], from: ModuleId, n: usize) -> usize
    requires { Reads records.now.words.now area.old records.now.layout × (from.0 < records.now.layout.modules)
        × Run records.now.layout.modules area.old n }
    ensures { Grown records.now.layout.modules area.old n area.new result
        (added (snap_by records.now area.old) from.0 (run_at area.old n)
        (names_alone (entries_over (snap_by records.now area.old) from.0 types
        (scopes_from (snap_by records.now area.old) from.0)))) }
{
    let mut m = from;
    let mut count = n;
    loop {
        count = offer_scope(records, area, from, m, count);
        let db = Snapshot {
            records: *records,
            area,
        };
        let Some(b) = block_step(&db, m) else {
            return count;
        };
        m = b;
    }
}

// The name of the extern with its head at a place, if it is one of the crate's.
fn offer_owned(
    records: &Records,
    area: &mut [u32],
    from: ModuleId,
    c: Crate,
    n: usize,
    h: usize,
) -> usize
    requires { Reads records.now.words.now area.old records.now.layout × (from.0 < records.now.layout.modules)
        × ExternFits (counts_in records.now.layout) (extern_at records.now.words.now h)
        × Run records.now.layout.modules area.old n }
    ensures { Grown records.now.layout.modules area.old n area.new result
        (name_if (snap_by records.now area.old) from.0 (run_at area.old n)
        (eqb (extern_at records.now.words.now h).owner c.0) (extern_at records.now.words.now h).name) }
{
    if extern_owner(records.words, h) != c {
        return n;
    }
    offer_plain(records, area, from, n, extern_name(records.words, h))
}

// The names of the externs of the viewer's crate.
fn offer_externs(records: &Records, area: &mut [u32], from: ModuleId, n: usize) -> usize
    requires { Reads records.now.words.now area.old records.now.layout × (from.0 < records.now.layout.modules)
        × Run records.now.layout.modules area.old n }
    ensures { Grown records.now.layout.modules area.old n area.new result
        (added (snap_by records.now area.old) from.0 (run_at area.old n)
        (names_alone (externs_in (snap_by records.now area.old) from.0 types))) }
{
    let db = Snapshot {
        records: *records,
        area,
    };
    let c = krate(&db, from);
    // `base + size * k` as in a `Span`: a method for it would be this sum under a name.
    let base = records.layout.extern_base();
    let externs = records.layout.externs;
    let mut count = n;
    for k in 0..externs {
        count = offer_owned(records, area, from, c, count, base + Size::EXTERN * k);
    }
    count
}

// Those of the prelude of the viewer's map.
fn offer_prelude(records: &Records, area: &mut [u32], from: ModuleId, n: usize) -> usize
    requires { Reads records.now.words.now area.old records.now.layout × (from.0 < records.now.layout.modules)
        × Run records.now.layout.modules area.old n }
    ensures { Grown records.now.layout.modules area.old n area.new result
        (added (snap_by records.now area.old) from.0 (run_at area.old n)
        (names_alone (prelude_entries (snap_by records.now area.old) from.0 types
        (prelude_of (snap_by records.now area.old) (map_no (snap_by records.now area.old) from.0))))) }
{
    let db = Snapshot {
        records: *records,
        area,
    };
    let Some(p) = prelude_of(records, map(&db, from)) else {
        return n;
    };
    offer_scope(records, area, from, prelude_target(records.words, p), n)
}

// The modules that one name alone means.
pub(crate) fn offer_plains(records: &Records, area: &mut [u32], from: ModuleId, n: usize) -> usize
    requires { Reads records.now.words.now area.old records.now.layout × (from.0 < records.now.layout.modules)
        × Run records.now.layout.modules area.old n }
    ensures { Grown records.now.layout.modules area.old n area.new result
        (added (snap_by records.now area.old) from.0 (run_at area.old n)
        (single true (snap_by records.now area.old) from.0 types)) }
{
    let near = offer_scopes(records, area, from, n);
    let outer = offer_externs(records, area, from, near);
    offer_prelude(records, area, from, outer)
}
