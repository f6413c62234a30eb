//! What a name alone means: an entry of the scopes around the viewer, an extern, an entry of the prelude.
ghost use Rattle.std.specs.Prelude.{◌≡◌, List, ℕ, ◌<◌};
ghost use Rattle.snapshot.specs.Ids.{plus_one};
ghost use Rattle.snapshot.specs.Records as lists;
ghost use Rattle.snapshot.specs.Records.{scope_at, extern_at};
ghost use Rattle.snapshot.specs.Laid.{snap_by};
ghost use Rattle.accept.specs.Opened.{snap_in};
ghost use Rattle.hir_def.specs.Entries.{entry_of};
ghost use Rattle.hir_def.specs.Items.{item_of};
ghost use Rattle.nameable.specs.Paths.{plain, reads, place_in};
ghost use Rattle.any_path.specs.Plain.{scopes_named, externs_named, prelude_named, record_read, module_no, module_in};

use crate::seen_entries::lookups::entry_named;
use crate::seen_entries::privacy::block_step;
use hir_def::crate_graph::prelude_of;
use hir_def::finds::nearest;
use hir_def::items::item_at;
use hir_def::{Item, View};
use module_tree::modules::{krate, map};
use read_back::lookups::extern_named;
use snapshot::ids::{ModuleId, Name, Namespace};
use snapshot::record::{extern_target, prelude_target};
use snapshot::records::Records;

/// The record by which a name is read, with the place of its head: a scope entry or an extern.
// Two kinds of records, neither of them an error: a `Result` would call one so.
#[derive(Clone, Copy)]
pub enum Reading {
    Scope(usize),
    Extern(usize),
}

// The nearest seen entry with a namespace and a name, in the viewer's scope or around its blocks.
fn scopes_named(view: &View, ns: usize, name: Name) -> Option<usize>
    ensures { entry_of scope_at view.now.db.records.words.now result ≡ scopes_named (snap_in view.now.db)
        view.now.from.0 ns name.0 }
{
    let find = |m| entry_named(view, m, ns, name);
    let outward = |m| block_step(&view.db, m);
    nearest(view.from, find, outward)
}

// The seen entry of the prelude with a namespace and a name.
fn prelude_named(view: &View, ns: usize, name: Name) -> Option<usize>
    ensures { entry_of scope_at view.now.db.records.words.now result ≡ prelude_named (snap_in view.now.db)
        view.now.from.0 ns name.0 }
{
    let p = prelude_of(&view.db.records, map(&view.db, view.from))?;
    entry_named(view, prelude_target(view.db.records.words, p), ns, name)
}

// The extern of the viewer's crate with a name, in types.
// `read_back::in_externs` has the test and the lookup, and answers the module: each is stated over a definition of its own.
pub(crate) fn externs_named(view: &View, ns: usize, name: Name) -> Option<usize>
    ensures { entry_of extern_at view.now.db.records.words.now result ≡ externs_named (snap_in view.now.db)
        view.now.from.0 ns name.0 }
{
    if ns != Namespace::TYPES {
        return None;
    }
    extern_named(&view.db.records, krate(&view.db, view.from), name)
}

/// The record by which a name alone is read in a namespace.
// Early returns: what is found by each lookup is told by a variant of its own.
pub fn read_plain(view: &View, ns: usize, name: Name) -> Option<Reading>
    ensures { record_read (snap_in view.now.db) view.now.db.records.words.now result
        ≡ reads (snap_in view.now.db) view.now.from.0 ns (plain name.0) }
{
    let near = scopes_named(view, ns, name);
    if let Some(h) = near {
        return Some(Reading::Scope(h));
    }
    let outer = externs_named(view, ns, name);
    if let Some(h) = outer {
        return Some(Reading::Extern(h));
    }
    let h = prelude_named(view, ns, name)?;
    Some(Reading::Scope(h))
}

// The module that the entry with its head at a place stands for.
fn entry_module(records: &Records, h: usize) -> Option<ModuleId>
    ensures { (A : List ℕ)
        → plus_one result ≡ module_no (item_of (snap_by records.now A) (scope_at records.now.words.now h).ns
        (scope_at records.now.words.now h).definition) }
{
    match item_at(records, h) {
        Item::Mod(m) => Some(m),
        Item::Def(_, _) => None,
    }
}

/// The module that a record stands for.
pub fn module_read(records: &Records, r: Option<Reading>) -> Option<ModuleId>
    ensures { (A : List ℕ) → plus_one result ≡ module_in (record_read (snap_by records.now A) records.now.words.now r) }
{
    match r? {
        Reading::Scope(h) => entry_module(records, h),
        Reading::Extern(h) => Some(extern_target(records.words, h)),
    }
}

/// The place of the record, 0 for none: a row holds it as a word of the work area.
pub fn place_read(r: Option<Reading>) -> usize
    ensures { (s : lists.Snapshot) (W : List ℕ) → result ≡ place_in (record_read s W r) }
{
    match r {
        Some(Reading::Scope(h)) => h,
        Some(Reading::Extern(h)) => h,
        None => 0,
    }
}
