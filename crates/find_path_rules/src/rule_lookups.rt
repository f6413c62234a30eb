//! The lookups of the prelude and the local rule: each rule's tests of an entry, and by options bit 32 old names last.

ghost use Rattle.std.specs.Prelude.{◌≡◌, List, true, ◌&&◌, ℕ, ◌<◌, ◌≤◌};
ghost use Rattle.snapshot.specs.Records.{scope_at};
ghost use Rattle.snapshot.specs.Laid.{snap_by};
ghost use Rattle.accept.specs.Opened.{snap_in};
ghost use Rattle.hir_def.specs.ItemScope.{is_for, name_of, name_reads, is_fresh, preferred, preferred_reads};
ghost use Rattle.hir_def.specs.Entries.{entry_of};
ghost use Rattle.find_path_spec.specs.declared.FindPathCtx.{FindPathCtx};
ghost use Rattle.find_path_spec.specs.Rules.{same_here, is_usable};
ghost use Rattle.find_path_spec.specs.Local.{is_importable};
ghost use Rattle.find_path_rules.specs.rule_lookups.Tests.{test_of};

use crate::path_context::sees;
use accept::opened::Snapshot;
use find_path_spec::FindPathCtx;
use hir_def::item_scope::{is_declared, is_deprecated, is_for, name_of, preferred};
use hir_def::items::{item_at, ns_of};
use hir_def::nameres::entry_named;
use hir_def::{Item, Lookup};
use snapshot::ids::{ModuleId, Visibility};
use snapshot::record::{scope_name, scope_seen};
use snapshot::records::Records;

/// The rule that looks an item up.
// Two rules by name: a bool would not say which is which.
#[derive(Clone, Copy)]
pub enum Rule {
    Prelude,
    Local,
}

// Whether an entry stands for the item, or there is none.
// True for no entry at all, so it is no equality: `Option == Option` would ask for an entry.
fn same_here(records: &Records, item: Item, e: Option<usize>) -> bool
    ensures { (A : List ℕ) (x : FindPathCtx) → result ≡ same_here (snap_by records.now A) x item
        (entry_of scope_at records.now.words.now e) }
{
    let Some(h) = e else {
        return true;
    };
    item_at(records, h) == item
}

/// The tests of the prelude rule: visible, and its name is not another thing's here.
pub fn is_usable(db: &Snapshot, x: FindPathCtx, item: Item, h: usize) -> bool
    requires { (x.from.0 < db.now.records.layout.modules) × (2 ≤ (scope_at db.now.records.words.now h).visibility
        → (scope_at db.now.records.words.now h).number < db.now.records.layout.modules) }
    ensures { result ≡ is_usable (snap_in db.now) x item (scope_at db.now.records.words.now h) }
{
    let seen = sees(db, x, h);
    let name = scope_name(db.records.words, h);
    let here = entry_named(db, x.from, ns_of(item), name);
    seen & same_here(&db.records, item, here)
}

/// The tests of the local rule: visible, and declared there or no implicitly private import.
pub fn is_importable(db: &Snapshot, x: FindPathCtx, h: usize) -> bool
    requires { (x.from.0 < db.now.records.layout.modules) × (2 ≤ (scope_at db.now.records.words.now h).visibility
        → (scope_at db.now.records.words.now h).number < db.now.records.layout.modules) }
    ensures { result ≡ is_importable (snap_in db.now) x (scope_at db.now.records.words.now h) }
{
    let seen = sees(db, x, h);
    let declared = is_declared(db.records.words, h);
    match scope_seen(db.records.words, h) {
        Visibility::Implied(_) => seen & declared,
        _ => seen,
    }
}

// The tests of the rule.
fn passes(db: &Snapshot, x: FindPathCtx, item: Item, rule: Rule, h: usize) -> bool
    requires { (x.from.0 < db.now.records.layout.modules) × (2 ≤ (scope_at db.now.records.words.now h).visibility
        → (scope_at db.now.records.words.now h).number < db.now.records.layout.modules) }
    ensures { result ≡ test_of (snap_in db.now) x item rule (scope_at db.now.records.words.now h) }
{
    match rule {
        Rule::Prelude => is_usable(db, x, item, h),
        Rule::Local => is_importable(db, x, h),
    }
}

// Whether an entry is one of the module's for the item, passes the tests of the rule and isn't deprecated.
fn is_fresh(db: &Snapshot, x: FindPathCtx, m: ModuleId, item: Item, rule: Rule, h: usize) -> bool
    requires { (x.from.0 < db.now.records.layout.modules) × (2 ≤ (scope_at db.now.records.words.now h).visibility
        → (scope_at db.now.records.words.now h).number < db.now.records.layout.modules) }
    ensures { result ≡ (is_for (snap_in db.now) m.0 item (scope_at db.now.records.words.now h)
        && is_fresh (test_of (snap_in db.now) x item rule) (scope_at db.now.records.words.now h)) }
{
    let its = is_for(&db.records, h, m, item);
    if !its | is_deprecated(db.records.words, h) {
        return false;
    }
    passes(db, x, item, rule, h)
}

// The first of the module's entries for the item that isn't deprecated and passes the tests of the rule; where there is none, the first
// of its entries for the item, with all records read.
// `hir_def::item_scope::fresh_of` calls `preferred` too, with the test of a declared entry where this has that of the rule: the call is all
// that they share.
fn fresh_of(db: &Snapshot, x: FindPathCtx, m: ModuleId, item: Item, rule: Rule) -> Lookup
    requires { x.from.0 < db.now.records.layout.modules }
    ensures { (entry_of scope_at db.now.records.words.now result.entry ≡ preferred true (snap_in db.now)
        m.0 item (test_of (snap_in db.now) x item rule)
        (name_of (snap_in db.now) m.0 item))
        × ((n : ℕ) → result.read ≡ preferred_reads true (snap_in db.now) m.0 item
        (test_of (snap_in db.now) x item rule) n) }
{
    let its = |h| is_for(&db.records, h, m, item);
    let fresh = |h| is_fresh(db, x, m, item, rule, h);
    preferred(db, item, its, fresh)
}

/// The first of the module's entries for the item; by options bit 32 the first that isn't deprecated and passes the tests of the rule, if
/// there is one.
pub fn entry_by(db: &Snapshot, x: FindPathCtx, m: ModuleId, item: Item, rule: Rule) -> Lookup
    requires { x.from.0 < db.now.records.layout.modules }
    ensures { (entry_of scope_at db.now.records.words.now result.entry ≡ preferred x.fresh (snap_in db.now)
        m.0 item (test_of (snap_in db.now) x item rule)
        (name_of (snap_in db.now) m.0 item))
        × (result.read ≡ preferred_reads x.fresh (snap_in db.now) m.0 item
        (test_of (snap_in db.now) x item rule)
        (name_reads (snap_in db.now) m.0 item)) }
{
    if x.fresh {
        return fresh_of(db, x, m, item, rule);
    }
    name_of(db, m, item)
}
