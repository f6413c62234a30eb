//! What a single name means: the first of a path, and a later one.
ghost use Rattle.std.specs.Prelude.{◌≡◌, List, ℕ, ◌<◌, ◌≤◌};
ghost use Rattle.std.specs.Prelude.{None, Some};
ghost use Rattle.snapshot.specs.Records.{scope_at};
ghost use Rattle.snapshot.specs.Laid.{snap_by};
ghost use Rattle.accept.specs.Opened.{snap_in};
ghost use Rattle.hir_def.specs.ItemScope.{get as entry_named};
ghost use Rattle.hir_def.specs.declared.Item.TheVariants.{Mod};
ghost use Rattle.read_back.specs.readings.Reads.{meaning as meaning_of, entry_or, in_externs, in_prelude_of, first_name, variant_named, variant_in};
ghost use Rattle.read_back.specs.readings.Reads.{later_name, after};

use crate::blocks::entry_from;
use crate::lookups::{extern_named, variant_named};
use hir_def::crate_graph::prelude_of;
use hir_def::item_scope::get;
use hir_def::items::{item_at, item_of};
use hir_def::{Item, View};
use module_tree::modules::{krate, map};
use module_tree::visibility::is_visible_from;
use snapshot::ids::{DefinitionId, ModuleId, Name, Namespace};
use snapshot::record::{extern_target, member_definition, prelude_target, scope_seen};
use snapshot::records::Records;

/// A module, as what a name means.
pub(crate) fn means_module(m: ModuleId) -> Option<Item>
    ensures { result ≡ Some (Mod m) }
{
    Some(Item::Mod(m))
}

// What the entry with its head at a place means, where it is visible.
fn meaning(view: &View, h: usize) -> Option<Item>
    requires { 2 ≤ (scope_at view.now.db.records.words.now h).visibility
        → (scope_at view.now.db.records.words.now h).number < view.now.db.records.layout.modules }
    ensures { result ≡ meaning_of (snap_in view.now.db) view.now.from.0 (scope_at view.now.db.records.words.now h) }
{
    let words = view.db.records.words;
    if is_visible_from(&view.db, scope_seen(words, h), view.from) {
        return Some(item_at(&view.db.records, h));
    }
    None
}

// By a module's own entry.
fn in_scope(view: &View, m: ModuleId, ns: usize, name: Name) -> Option<Item>
    ensures { result ≡ entry_or (snap_in view.now.db) view.now.from.0 None
        (entry_named (snap_in view.now.db) m.0 ns name.0) }
{
    let h = get(&view.db, m, ns, name)?;
    meaning(view, h)
}

/// By an extern of the viewer's crate, in types.
// `any_path::externs_named` has the test and the lookup, and answers the record: each is stated over a definition of its own.
pub(crate) fn in_externs(view: &View, ns: usize, name: Name) -> Option<Item>
    ensures { result ≡ in_externs (snap_in view.now.db) view.now.from.0 ns name.0 }
{
    if ns != Namespace::TYPES {
        return None;
    }
    let h = extern_named(&view.db.records, krate(&view.db, view.from), name)?;
    means_module(extern_target(view.db.records.words, h))
}

// By the prelude of the viewer's map.
// `any_path::prelude_named` and `told_paths::arrivals::plain_in_prelude` look up in the module by functions of their own: one of all three would
// be these two lines with a closure, under a clause over what it answers.
fn in_prelude(view: &View, ns: usize, name: Name) -> Option<Item>
    ensures { result ≡ in_prelude_of (snap_in view.now.db) view.now.from.0 ns name.0 }
{
    let p = prelude_of(&view.db.records, map(&view.db, view.from))?;
    in_scope(view, prelude_target(view.db.records.words, p), ns, name)
}

/// The first name of a plain path: the first of scopes, externs and prelude that has it decides.
pub(crate) fn first_name(view: &View, ns: usize, name: Name) -> Option<Item>
    ensures { result ≡ first_name (snap_in view.now.db) view.now.from.0 ns name.0 }
{
    if let Some(h) = entry_from(view, ns, name) {
        return meaning(view, h);
    }
    let last = || in_prelude(view, ns, name);
    in_externs(view, ns, name).or_else(last)
}

// By the variants of an enum.
fn in_enum(records: &Records, d: DefinitionId, ns: usize, name: Name) -> Option<Item>
    ensures { (A : List ℕ) → result ≡ variant_in (snap_by records.now A) ns
        (variant_named (snap_by records.now A) d.0 name.0) }
{
    let h = variant_named(records, d, name)?;
    if ns < Namespace::MACROS {
        return Some(item_of(records, ns, member_definition(records.words, h)));
    }
    None
}

// A name after an item.
// `told_paths::told_routes::in_item` has these arms over functions that tell the place of the record too.
fn later_name(view: &View, ns: usize, name: Name, item: Item) -> Option<Item>
    ensures { result ≡ later_name (snap_in view.now.db) view.now.from.0 ns name.0 item }
{
    match item {
        Item::Mod(m) => in_scope(view, m, ns, name),
        Item::Def(_, d) => in_enum(&view.db.records, d, ns, name),
    }
}

/// A name after what was reached, if anything was.
pub(crate) fn next_name(view: &View, ns: usize, name: Name, here: Option<Item>) -> Option<Item>
    ensures { result ≡ after here (later_name (snap_in view.now.db) view.now.from.0 ns name.0) }
{
    let x = here?;
    later_name(view, ns, name, x)
}
