//! The declaration of an entry's item, and whether an entry is seen.
ghost use Rattle.std.specs.Prelude.{◌≡◌, List, ℕ, suc, ◌<◌};
ghost use Rattle.snapshot.specs.Ids.{plus_one};
ghost use Rattle.snapshot.specs.Records.{scope_at};
ghost use Rattle.snapshot.specs.Laid.{snap_by};
ghost use Rattle.check_records.specs.record_rules.Stands.{counts_in};
ghost use Rattle.accept.specs.Valid.{ScopeFits};
ghost use Rattle.accept.specs.Opened.{snap_in};
ghost use Rattle.hir_def.specs.Entries.{entry_of};
ghost use Rattle.nameable.specs.Seen.{is_declaration, declared_ns, declared_as, declared_in, declaration_in, declaration_of, both_hold, holds_in};
ghost use Rattle.nameable.specs.Seen.{seen as seen_from};

use crate::seen_entries::privacy::holds;
use accept::opened::Snapshot;
use hir_def::finds::first_where;
use hir_def::item_scope::is_declared;
use hir_def::items::{first_of, home_of, known_kind_of};
use hir_def::spans::scopes;
use hir_def::{Item, View};
use module_tree::modules::parent;
use snapshot::ids::{DefinitionId, DefinitionKind, ModuleId, Namespace};
use snapshot::record::{scope_definition, scope_ns, scope_owner, scope_seen};
use snapshot::records::Records;

// The namespace in which what stands for a definition is declared: of a variant types.
fn declared_ns(records: &Records, ns: usize, d: DefinitionId) -> usize
    ensures { (A : List ℕ) → result ≡ declared_ns (snap_by records.now A) ns d.0 }
{
    if known_kind_of(records, d) == Some(DefinitionKind::Variant) {
        return Namespace::TYPES;
    }
    ns
}

// What is declared for a definition: for a variant its enum.
fn declared_as(records: &Records, d: DefinitionId) -> DefinitionId
    ensures { (A : List ℕ) → result.0 ≡ declared_as (snap_by records.now A) d.0 }
{
    if known_kind_of(records, d) == Some(DefinitionKind::Variant) {
        return DefinitionId(first_of(records, d));
    }
    d
}

// The module in which that is declared: its home, for a module the parent.
fn declared_in(db: &Snapshot, d: DefinitionId) -> Option<ModuleId>
    requires { d.0 < db.now.records.layout.definitions }
    ensures { plus_one result ≡ declared_in (snap_in db.now) d.0 }
{
    if known_kind_of(&db.records, d) == Some(DefinitionKind::Module) {
        return parent(db, ModuleId(first_of(&db.records, d)));
    }
    home_of(&db.records, Item::Def(Namespace(Namespace::TYPES), d))
}

// Whether the entry with its head at a place is the module's declared one for a namespace and a definition.
fn is_declaration(words: &[u32], h: usize, m: ModuleId, ns: usize, d: DefinitionId) -> bool
    ensures { result ≡ is_declaration m.0 ns d.0 (scope_at words.now h) }
{
    if scope_owner(words, h) != m {
        return false;
    }
    let same = (scope_ns(words, h) == ns) & (scope_definition(words, h) == d);
    same & is_declared(words, h)
}

// The declared entry of a module for a namespace and a definition.
fn declaration_in(records: &Records, m: ModuleId, ns: usize, d: DefinitionId) -> Option<usize>
    ensures { (A : List ℕ) → entry_of scope_at records.now.words.now result ≡ declaration_in (snap_by records.now A) ns
        d.0 (suc m.0) }
{
    let test = |h| is_declaration(records.words, h, m, ns, d);
    first_where(scopes(records), test)
}

/// The declaration of the item of the entry with its head at a place.
pub fn declaration_of(db: &Snapshot, h: usize) -> Option<usize>
    requires { ScopeFits (counts_in db.now.records.layout) (scope_at db.now.records.words.now h) }
    ensures { entry_of scope_at db.now.records.words.now result ≡ declaration_of (snap_in db.now)
        (scope_at db.now.records.words.now h) }
{
    let d = scope_definition(db.records.words, h);
    let m = declared_in(db, d)?;
    let ns = declared_ns(&db.records, scope_ns(db.records.words, h), d);
    declaration_in(&db.records, m, ns, declared_as(&db.records, d))
}

// Whether the visibility of the entry with its head at a place holds in the viewing module.
fn holds_at(view: &View, h: usize) -> bool
    requires { ScopeFits (counts_in view.now.db.records.layout) (scope_at view.now.db.records.words.now h) }
    ensures { result ≡ holds_in (snap_in view.now.db) view.now.from.0 (scope_at view.now.db.records.words.now h) }
{
    holds(view, scope_seen(view.db.records.words, h))
}

// Whether that and its declaration's both hold.
fn both_hold(view: &View, h: usize) -> bool
    requires { ScopeFits (counts_in view.now.db.records.layout) (scope_at view.now.db.records.words.now h) }
    ensures { result ≡ both_hold (snap_in view.now.db) view.now.from.0 (scope_at view.now.db.records.words.now h) }
{
    if holds_at(view, h) {
        let Some(e) = declaration_of(&view.db, h) else {
            return true;
        };
        return holds_at(view, e);
    }
    false
}

/// Whether the entry with its head at a place counts in its module and is seen from the viewer.
pub fn seen(view: &View, h: usize) -> bool
    requires { ScopeFits (counts_in view.now.db.records.layout) (scope_at view.now.db.records.words.now h) }
    ensures { result ≡ seen_from (snap_in view.now.db) view.now.from.0 (scope_at view.now.db.records.words.now h) }
{
    let own = View {
        db: view.db,
        from: scope_owner(view.db.records.words, h),
    };
    if both_hold(&own, h) {
        return both_hold(view, h);
    }
    false
}
