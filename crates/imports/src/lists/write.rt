//! The import records of a crate, written to a target or only counted: one walk for both.
//! The target is words that C lends, in a library without a heap: no Vec to push to, so each function answers the place after its words.
//! Target, place and flag are three parameters: of a struct that holds the target each function would promise too that its loan is still the same.
//! `write` stays a bool: `Space` and `Wrote` are stated over it, and an enum of two variants would be turned into it in each clause.
ghost use Rattle.std.specs.Prelude.{ℕ, ◌≡◌, ◌+◌, ◌<◌, ◌≤◌, [], ◌∷◌};
ghost use Rattle.snapshot.specs.Limits.{module_limit};
ghost use Rattle.snapshot.specs.MemberKinds.{member_kind_of};
ghost use Rattle.snapshot.specs.Records.{scope_at, member_at};
ghost use Rattle.accept.specs.Valid.{Each};
ghost use Rattle.accept.specs.Opened.{snap_in};
ghost use Rattle.import_rules.specs.Collect.{member_ns, member_import, entries_of, imports_of, imports_in, imports_over};
ghost use Rattle.imports.specs.lists.Threads.{Threaded};
ghost use Rattle.imports.specs.lists.Walks.{order_at};
ghost use Rattle.imports.specs.lists.Writes.{import_of, Bounded, Space, Wrote, kept_imports, members_of, Listed};

use crate::lists::threads::{member_heads_base, member_links_base};
use crate::lists::walk::order_base;
use crate::order::sort::Lists;
use accept::opened::Snapshot;
use snapshot::ids::{Crate, DefinitionId, MemberKind, ModuleId, Name, Namespace};
use snapshot::kind::Size;
use snapshot::reading::word;
use snapshot::record::{
    known_member_kind, member_bits, member_definition, member_name, scope_bits, scope_definition,
    scope_name, scope_ns, scope_owner,
};

/// The fields of an import record.
#[derive(Clone, Copy)]
pub struct NewImport {
    pub krate: Crate,
    pub ns: usize,
    pub definition: DefinitionId,
    pub name: Name,
    pub module: ModuleId,
    pub bits: usize,
}

// Writes an import's words, if it is to write, and answers the place after them.
fn put_import(target: &mut [u32], at: usize, write: bool, import: NewImport) -> usize
    requires { Bounded (import_of import) × Space write at (import_of import ∷ []) target.old }
    ensures { Wrote write at (import_of import ∷ []) target.old target.new result }
{
    if write {
        target[at] = (0xA0000000 + import.krate.0) as u32;
        target[at + 1] = import.ns as u32;
        target[at + 2] = import.definition.0 as u32;
        target[at + 3] = import.name.0 as u32;
        target[at + 4] = import.module.0 as u32;
        target[at + 5] = import.bits as u32;
    }
    at + Size::IMPORT
}

// The namespace of a member: types for a variant, that of its parent's entry for another.
fn member_ns(ns: usize, kind: Option<MemberKind>) -> usize
    ensures { (k : ℕ) → kind ≡ member_kind_of k → result ≡ member_ns ns k }
{
    if kind == Some(MemberKind::Variant) {
        return Namespace::TYPES;
    }
    ns
}

// Puts the member at a place, unless it is a type alias.
fn put_member(
    words: &[u32],
    target: &mut [u32],
    at: usize,
    write: bool,
    c: Crate,
    entry: usize,
    member: usize,
) -> usize
    requires bounded { Bounded (member_import c.0 (scope_at words.now entry) (member_at words.now member)) }
    requires space { Space write at (kept_imports c.0 (scope_at words.now entry) (member_at words.now member ∷ [])) target.old }
    ensures { Wrote write at (kept_imports c.0 (scope_at words.now entry) (member_at words.now member ∷ []))
        target.old target.new result }
{
    let kind = known_member_kind(words, member);
    if kind == Some(MemberKind::TypeAlias) {
        return at;
    }
    let import = NewImport {
        krate: c,
        ns: member_ns(scope_ns(words, entry), kind),
        definition: member_definition(words, member),
        name: member_name(words, member),
        module: scope_owner(words, entry),
        bits: member_bits(words, member),
    };
    put_import(target, at, write, import)
}

// Puts the members of an entry's definition, in record order.
// `while`: it follows links, so the next place is read; so in `put_module`.
fn put_members(
    db: &Snapshot,
    target: &mut [u32],
    at: usize,
    write: bool,
    c: Crate,
    entry: usize,
) -> usize
    requires listed { Listed db.now.records.words.now db.now.area.now db.now.records.layout c.0 (scope_at db.now.records.words.now entry) }
    requires space { Space write at (members_of (snap_in db.now) c.0 (scope_at db.now.records.words.now entry)) target.old }
    ensures { Wrote write at (members_of (snap_in db.now) c.0 (scope_at db.now.records.words.now entry))
        target.old target.new result }
{
    let d = scope_definition(db.records.words, entry);
    let base = db.records.layout.member_base();
    let mut t = at;
    let links = member_links_base(db.records.layout);
    let mut k = word(db.area, member_heads_base(db.records.layout) + d.0);
    while k != 0 {
        let member = base + Size::MEMBER * (db.records.layout.members - k);
        t = put_member(db.records.words, target, t, write, c, entry, member);
        k = word(db.area, links + (k - 1));
    }
    t
}

// Puts an entry after the members of its definition.
fn put_entry(
    db: &Snapshot,
    target: &mut [u32],
    at: usize,
    write: bool,
    c: Crate,
    entry: usize,
) -> usize
    requires listed { Listed db.now.records.words.now db.now.area.now db.now.records.layout c.0 (scope_at db.now.records.words.now entry) }
    requires space { Space write at (imports_of (snap_in db.now) c.0 (scope_at db.now.records.words.now entry)) target.old }
    ensures { Wrote write at (imports_of (snap_in db.now) c.0 (scope_at db.now.records.words.now entry))
        target.old target.new result }
{
    let t = put_members(db, target, at, write, c, entry);
    let import = NewImport {
        krate: c,
        ns: scope_ns(db.records.words, entry),
        definition: scope_definition(db.records.words, entry),
        name: scope_name(db.records.words, entry),
        module: scope_owner(db.records.words, entry),
        bits: scope_bits(db.records.words, entry),
    };
    put_import(target, t, write, import)
}

// Puts the public entries of a module.
// `while`, as in `put_members`.
fn put_module(
    db: &Snapshot,
    n: usize,
    target: &mut [u32],
    at: usize,
    write: bool,
    c: Crate,
    m: ModuleId,
) -> usize
    requires threaded { Threaded db.now.records.words.now db.now.area.now db.now.records.layout n × (c.0 < db.now.records.layout.crates)
        × (m.0 < module_limit) }
    requires space { Space write at (imports_in (snap_in db.now) c.0 (entries_of (snap_in db.now) m.0))
        target.old }
    ensures { Wrote write at (imports_in (snap_in db.now) c.0
        (entries_of (snap_in db.now) m.0)) target.old target.new result }
{
    let mut t = at;
    let mut k = word(db.area, Lists::HEADS + m.0);
    while k != 0 {
        let entry = word(db.area, Lists::ENTRIES + (n - k));
        t = put_entry(db, target, t, write, c, entry);
        k = word(db.area, Lists::SPARE + (k - 1));
    }
    t
}

/// Puts the imports of the modules in order, and answers the place after them.
pub fn put_modules(
    db: &Snapshot,
    n: usize,
    order: usize,
    target: &mut [u32],
    at: usize,
    write: bool,
    c: Crate,
) -> usize
    requires threaded { Threaded db.now.records.words.now db.now.area.now db.now.records.layout n × (c.0 < db.now.records.layout.crates)
        × (order ≤ db.now.records.layout.scopes + 1)
        × Each (λ m. m < db.now.records.layout.modules) (order_at db.now.area.now db.now.records.layout order) }
    requires space { Space write at (imports_over (snap_in db.now) c.0 (order_at db.now.area.now db.now.records.layout order)) target.old }
    ensures { Wrote write at (imports_over (snap_in db.now) c.0 (order_at db.now.area.now db.now.records.layout order))
        target.old target.new result }
{
    let base = order_base(db.records.layout);
    let mut t = at;
    for i in 0..order {
        let m = ModuleId(word(db.area, base + i));
        t = put_module(db, n, target, t, write, c, m);
    }
    t
}
