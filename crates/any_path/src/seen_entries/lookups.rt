//! The seen entries of a module, by name and by item.
ghost use Rattle.std.specs.Prelude.{◌≡◌, ◌&&◌, ◌<◌};
ghost use Rattle.snapshot.specs.Records.{scope_at};
ghost use Rattle.check_records.specs.record_rules.Stands.{counts_in};
ghost use Rattle.accept.specs.Valid.{ScopeFits};
ghost use Rattle.accept.specs.Opened.{snap_in};
ghost use Rattle.hir_def.specs.Entries.{entry_of};
ghost use Rattle.hir_def.specs.ItemScope.{is_for, is_named, names_of};
ghost use Rattle.nameable.specs.Seen.{seen as seen_from};
ghost use Rattle.nameable.specs.Queue.{seen_named};

use crate::seen_entries::entries::seen;
use hir_def::finds::first_where;
use hir_def::item_scope::{is_for, is_named};
use hir_def::spans::scopes;
use hir_def::{Item, View};
use snapshot::ids::{ModuleId, Name};

// Whether the entry with its head at a place has the module, the namespace and the name, and is seen.
fn is_named_seen(view: &View, m: ModuleId, ns: usize, name: Name, h: usize) -> bool
    requires { ScopeFits (counts_in view.now.db.records.layout) (scope_at view.now.db.records.words.now h) }
    ensures { result ≡ (is_named m.0 ns name.0 (scope_at view.now.db.records.words.now h) && seen_from
        (snap_in view.now.db) view.now.from.0 (scope_at view.now.db.records.words.now h)) }
{
    if is_named(view.db.records.words, h, m, ns, name) {
        return seen(view, h);
    }
    false
}

/// The seen entry of a module with a namespace and a name.
pub fn entry_named(view: &View, m: ModuleId, ns: usize, name: Name) -> Option<usize>
    ensures { entry_of scope_at view.now.db.records.words.now result ≡ seen_named (snap_in view.now.db)
        view.now.from.0 ns m.0 name.0 }
{
    let test = |h| is_named_seen(view, m, ns, name, h);
    first_where(scopes(&view.db.records), test)
}

// Whether the entry with its head at a place is one of the module's for the item, and is seen.
fn is_for_seen(view: &View, m: ModuleId, item: Item, h: usize) -> bool
    requires { ScopeFits (counts_in view.now.db.records.layout) (scope_at view.now.db.records.words.now h) }
    ensures { result ≡ (is_for (snap_in view.now.db) m.0 item (scope_at view.now.db.records.words.now h)
        && seen_from (snap_in view.now.db) view.now.from.0 (scope_at view.now.db.records.words.now h)) }
{
    if is_for(&view.db.records, h, m, item) {
        return seen(view, h);
    }
    false
}

/// The first seen entry of a module for an item.
pub fn entry_for(view: &View, m: ModuleId, item: Item) -> Option<usize>
    ensures { entry_of scope_at view.now.db.records.words.now result ≡ names_of (snap_in view.now.db) m.0 item
        (seen_from (snap_in view.now.db) view.now.from.0) }
{
    let test = |h| is_for_seen(view, m, item, h);
    first_where(scopes(&view.db.records), test)
}
