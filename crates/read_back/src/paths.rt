//! What a path means, and whether it means an item.
ghost use Rattle.std.specs.Prelude.{◌≡◌, ℕ, ◌+◌, ◌-◌, ◌<◌, length, get_or};
ghost use Rattle.snapshot.specs.Lists.{rows};
ghost use Rattle.accept.specs.Opened.{snap_in};
ghost use Rattle.hir_def.specs.Items.{parent_of};
ghost use Rattle.read_back.specs.readings.Reads.{stands_for, parent_means, looked_in, follow as follow_of, absolutely, plainly, reads_to, reads_back};

use crate::blocks::stands_for;
use crate::names::{first_name, in_externs, means_module, next_name};
use accept::opened::Snapshot;
use hir_def::items::ns_of;
use hir_def::{Item, View};
use module_tree::modules::{crate_root, parent};
use snapshot::ids::{ModuleId, Name, Namespace, PathKind};

// Where the name k of so many is looked up.
// `told_paths::told_routes::looked_in` answers the same over the definition of another list of names, counted from the last.
fn looked_in(ns: usize, k: usize, count: usize) -> usize
    requires { k < count }
    ensures { (f : ℕ → ℕ) → result ≡ looked_in ns (rows f (k + 1) (count - (k + 1))) }
{
    if k + 1 < count {
        return Namespace::TYPES;
    }
    ns
}

// The names from a number on, after what was reached.
fn follow(
    view: &View,
    ns: usize,
    start: Option<Item>,
    names: &[usize],
    first: usize,
) -> Option<Item>
    ensures { result ≡ follow_of (snap_in view.now.db) view.now.from.0 ns start
        (rows (λ i. get_or names.now i 0) first (length names.now - first)) }
{
    let count = names.len();
    let mut here = start;
    for k in first..count {
        let its = looked_in(ns, k, count);
        here = next_name(view, its, Name(names[k]), here);
    }
    here
}

// What `super` means.
fn super_of(view: &View) -> Option<Item>
    ensures { result ≡ parent_means (snap_in view.now.db)
        (parent_of (snap_in view.now.db) (stands_for (snap_in view.now.db) view.now.from.0)) }
{
    let m = stands_for(&view.db, view.from);
    let p = parent(&view.db, m)?;
    means_module(stands_for(&view.db, p))
}

// A path that begins with an extern.
// As `plainly`, with another first lookup: `readings` has a definition of each, and one of both would take the lookup as a closure.
fn absolutely(view: &View, ns: usize, names: &[usize]) -> Option<Item>
    ensures { result ≡ absolutely (snap_in view.now.db) view.now.from.0 ns names.now }
{
    let count = names.len();
    if count == 0 {
        return None;
    }
    let its = looked_in(ns, 0, count);
    let here = in_externs(view, its, Name(names[0]));
    follow(view, ns, here, names, 1)
}

// A path that begins with any name.
fn plainly(view: &View, ns: usize, names: &[usize]) -> Option<Item>
    ensures { result ≡ plainly (snap_in view.now.db) view.now.from.0 ns names.now }
{
    let count = names.len();
    if count == 0 {
        return None;
    }
    let its = looked_in(ns, 0, count);
    let here = first_name(view, its, Name(names[0]));
    follow(view, ns, here, names, 1)
}

// The item that a path means in a module; a number that is no kind is read as plain.
// `Plain` and none have an arm each: joined, the arm has no name by which a proof can speak of it.
fn reads_to(view: &View, ns: usize, kind: usize, names: &[usize]) -> Option<Item>
    ensures { result ≡ reads_to (snap_in view.now.db) view.now.from.0 ns kind names.now }
{
    match PathKind::of(kind) {
        Some(PathKind::SelfModule) => {
            let here = means_module(stands_for(&view.db, view.from));
            follow(view, ns, here, names, 0)
        }
        Some(PathKind::Super) => follow(view, ns, super_of(view), names, 0),
        Some(PathKind::Crate) => {
            let root = means_module(crate_root(&view.db, view.from));
            follow(view, ns, root, names, 0)
        }
        Some(PathKind::Absolute) => absolutely(view, ns, names),
        Some(PathKind::Plain) => plainly(view, ns, names),
        None => plainly(view, ns, names),
    }
}

/// Whether a path, read from a module, means exactly the item.
pub fn reads_back(db: &Snapshot, from: ModuleId, item: Item, kind: usize, names: &[usize]) -> bool
    requires { from.0 < db.now.records.layout.modules }
    ensures { result ≡ reads_back (snap_in db.now) from.0 item kind names.now }
{
    let view = View { db: *db, from };
    let Some(x) = reads_to(&view, ns_of(item), kind, names) else {
        return false;
    };
    x == item
}
