//! `find_local_import_locations`: the modules that a local search takes, as a run of the work area.
ghost use Rattle.std.specs.Prelude.{◌≡◌, map, ◌&&◌, ◌+◌, ◌<◌, ◌≤◌, eqb, length};
ghost use Rattle.snapshot.specs.Layouts.{table_words};
ghost use Rattle.snapshot.specs.Records.{scope_at};
ghost use Rattle.snapshot.specs.Laid.{snap_by};
ghost use Rattle.accept.specs.Post.{Reads};
ghost use Rattle.accept.specs.Opened.{snap_in};
ghost use Rattle.hir_def.specs.Items.{crate_of};
ghost use Rattle.module_tree.specs.rules.Visibility.{sees};
ghost use Rattle.hir_def.specs.Nameres.{children_of, containers};
ghost use Rattle.find_path_spec.specs.Walk.{visited, leads_to, find_local_import_locations};
ghost use Rattle.find_path_levels.specs.Levels.{levels_of, Chain, walk_room};
ghost use Rattle.find_path_levels.specs.Post.{Ready, Pushed, Gathered};

use crate::levels::push_module;
use crate::{Sought, Stack};
use accept::opened::Snapshot;
use hir_def::item_scope::modules_in_scope;
use hir_def::items::first_of;
use module_tree::modules::{containing_module, krate};
use module_tree::visibility::is_visible_from;
use snapshot::ids::ModuleId;
use snapshot::kind::Size;
use snapshot::reading::word;
use snapshot::record::{child_child, child_owner, scope_definition, scope_seen};
use snapshot::records::Records;

// `from`, `s` and `sought` stay the same through a walk. They are parameters of their own, since the contracts and the definitions take them
// one by one: a struct would be opened again in each.

// The children of the viewing module, in record order.
fn push_children(
    records: &Records,
    area: &mut [u32],
    from: ModuleId,
    s: Stack,
    n: usize,
    sought: Sought,
) -> usize
    requires { Reads records.now.words.now area.old records.now.layout × Ready area.old s n }
    ensures { Pushed area.old s n sought.item
        (map (λ c. c.child) (children_of (snap_by records.now area.old) from.0)) area.new result }
{
    let base = records.layout.child_base();
    let mut run = n;
    // `base + size * k` as in a `Span`: a method for it would be this sum under a name.
    for k in 0..records.layout.children {
        let h = base + Size::CHILD * k;
        if child_owner(records.words, h) == from {
            let m = child_child(records.words, h);
            run = push_module(area, s, run, sought, m);
        }
    }
    run
}

// The containing modules of the viewing module, nearest first.
// `loop`: it climbs to the module that contains the last, and ends where there is none.
fn push_containers(
    records: &Records,
    area: &mut [u32],
    from: ModuleId,
    s: Stack,
    n: usize,
    sought: Sought,
) -> usize
    requires { Reads records.now.words.now area.old records.now.layout × (from.0 < records.now.layout.modules) × Ready area.old s n }
    ensures { Pushed area.old s n sought.item (containers (snap_by records.now area.old) from.0)
        area.new result }
{
    let mut run = n;
    let mut m = from;
    loop {
        let db = Snapshot {
            records: *records,
            area,
        };
        let Some(c) = containing_module(&db, m) else {
            return run;
        };
        m = c;
        run = push_module(area, s, run, sought, m);
    }
}

// Whether the module entry with its head at a place leads on: in the viewer's crate, and visible from the viewer.
fn leads(db: &Snapshot, from: ModuleId, h: usize, to: ModuleId) -> bool
    requires { (from.0 < db.now.records.layout.modules) × (to.0 < db.now.records.layout.modules)
        × (2 ≤ (scope_at db.now.records.words.now h).visibility
        → (scope_at db.now.records.words.now h).number < db.now.records.layout.modules) }
    ensures { result ≡ (eqb (crate_of (snap_in db.now) to.0)
        (crate_of (snap_in db.now) from.0) && sees (snap_in db.now)
        from.0 (scope_at db.now.records.words.now h)) }
{
    if krate(db, to) != krate(db, from) {
        return false;
    }
    is_visible_from(db, scope_seen(db.records.words, h), from)
}

// The modules that a module leads to, in record order.
// `loop`: each turn looks for the next one after the last, in the snapshot as it then is.
fn push_next(
    records: &Records,
    area: &mut [u32],
    from: ModuleId,
    s: Stack,
    n: usize,
    sought: Sought,
    m: ModuleId,
) -> usize
    requires { Reads records.now.words.now area.old records.now.layout × (from.0 < records.now.layout.modules) × Ready area.old s n }
    ensures { Pushed area.old s n sought.item (leads_to (snap_by records.now area.old) from.0 m.0)
        area.new result }
{
    let mut run = n;
    let mut k = 0;
    loop {
        let db = Snapshot {
            records: *records,
            area,
        };
        let Some(next) = modules_in_scope(&db, k, m) else {
            return run;
        };
        let to = ModuleId(first_of(records, scope_definition(records.words, next.head)));
        if leads(&db, from, next.head, to) {
            run = push_module(area, s, run, sought, to);
        }
        k = next.number + 1;
    }
}

/// The modules that a local search for the item takes, in order, as a run at the top.
pub fn find_local_import_locations(
    records: &Records,
    area: &mut [u32],
    from: ModuleId,
    s: Stack,
    sought: Sought,
) -> usize
    requires { Reads records.now.words.now area.old records.now.layout × (from.0 < records.now.layout.modules) × (table_words ≤ s.top)
        × (s.top + walk_room ≤ length area.old) × Chain area.old s.place s.depth s.top }
    ensures { Gathered area.old s.top (find_local_import_locations (snap_by records.now area.old)
        from.0 (visited (levels_of area.old s.place s.depth) sought.item)) area.new result }
{
    let children = push_children(records, area, from, s, 0, sought);
    let mut n = push_containers(records, area, from, s, children, sought);
    let mut k = 0;
    // No range: `n` grows in the loop.
    while k < n {
        let m = ModuleId(word(area, s.top + k));
        n = push_next(records, area, from, s, n, sought, m);
        k += 1;
    }
    n
}
