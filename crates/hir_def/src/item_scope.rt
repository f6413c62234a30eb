//! The scope of a module, after item_scope.rs: its entries in record order.
//! `declared` and `fresh` are bits of the options, and bools in the definitions `counts` and `preferred`: an enum for either would be made a bool in
//! each clause.

ghost use Rattle.std.specs.Prelude.{◌≡◌, List, Bool, true, false, ◌&&◌, ℕ, ◌+◌, ◌*◌, ◌<◌, ◌≤◌};
ghost use Rattle.snapshot.specs.Sizes.{scope_size};
ghost use Rattle.snapshot.specs.Records.{Scope, scope_at};
ghost use Rattle.snapshot.specs.Layouts.{scope_base};
ghost use Rattle.snapshot.specs.Laid.{snap_by};
ghost use Rattle.record_index.specs.Index.{key_of, Follows};
ghost use Rattle.record_index.specs.declared.chains.Chain.TheVariants.{Modules};
ghost use Rattle.hir_def.specs.Keys.{scopes_in, Keyed};
ghost use Rattle.hir_def.specs.ItemScope.{is_declared, is_deprecated, is_fresh, counts, is_for, is_named, is_module_entry, name_of};
ghost use Rattle.hir_def.specs.ItemScope.{names_of, name_reads, names_reads, preferred, preferred_reads, get as entry_named};
ghost use Rattle.hir_def.specs.Finds.{first_of, reads_of, or_first};
ghost use Rattle.hir_def.specs.Nameres.{entry_in};
ghost use Rattle.hir_def.specs.Entries.{entry_of, UpTo, NextOf};

use crate::chain::{first_in_chain, item_key, next_in_chain};
use crate::items::{item_at, known_kind_of};
use crate::{Item, Lookup, Place};
use accept::opened::Snapshot;
use record_index::chains::Chain;
use snapshot::ids::{DefinitionKind, ModuleId, Name, Namespace};
use snapshot::record::{scope_declared, scope_definition, scope_name, scope_ns, scope_owner};
use snapshot::records::Records;

/// Whether the entry with its head at a place was declared there: 1, or 3 where it is deprecated too.
#[inline]
pub fn is_declared(words: &[u32], h: usize) -> bool
    ensures { result ≡ is_declared (scope_at words.now h) }
{
    scope_declared(words, h) % 2 == 1
}

/// Whether it is deprecated: 2 or 3.
pub fn is_deprecated(words: &[u32], h: usize) -> bool
    ensures { result ≡ is_deprecated (scope_at words.now h) }
{
    2 <= scope_declared(words, h)
}

/// Whether the entry with its head at a place is one of the module's for the item.
// Over the fields of a scope entry; `import_map::is_import` reads an import's, so one of both would take four readers as parameters.
#[inline]
pub fn is_for(records: &Records, h: usize, m: ModuleId, item: Item) -> bool
    ensures { (A : List ℕ) → result ≡ is_for (snap_by records.now A) m.0 item (scope_at records.now.words.now h) }
{
    if scope_owner(records.words, h) != m {
        return false;
    }
    item_at(records, h) == item
}

// The same, and the entry was declared there where only such entries count.
#[inline]
fn is_entry(records: &Records, h: usize, m: ModuleId, item: Item, declared: bool) -> bool
    ensures { (A : List ℕ)
        → result ≡ (is_for (snap_by records.now A) m.0 item (scope_at records.now.words.now h) && counts declared
        (scope_at records.now.words.now h)) }
{
    if is_for(records, h, m, item) {
        let here = is_declared(records.words, h);
        return here | !declared;
    }
    false
}

// The same, and the entry isn't deprecated.
fn is_fresh(records: &Records, h: usize, m: ModuleId, item: Item, declared: bool) -> bool
    ensures { (A : List ℕ)
        → result ≡ (is_for (snap_by records.now A) m.0 item (scope_at records.now.words.now h) && is_fresh (counts declared)
        (scope_at records.now.words.now h)) }
{
    is_entry(records, h, m, item, declared) && !is_deprecated(records.words, h)
}

/// The first of the module's entries for the item; of those declared there, where only such entries count. Counts the records up to it.
pub fn names_of(db: &Snapshot, m: ModuleId, item: Item, declared: bool) -> Lookup
    ensures { ((A : List ℕ) → entry_of scope_at db.now.records.words.now result.entry ≡ names_of (snap_by db.now.records A)
        m.0 item (counts declared)) × ((A : List ℕ) → result.read ≡ names_reads (snap_by db.now.records A) m.0 item (counts declared))
        × UpTo 8 (scope_base db.now.records.layout) db.now.records.layout.scopes result.entry result.read }
{
    let test = |h| is_entry(&db.records, h, m, item, declared);
    match next_in_chain(db, Chain::Items, item_key(item), 0, test) {
        Some(found) => Lookup {
            entry: Some(found.head),
            read: found.number + 1,
        },
        None => Lookup {
            entry: None,
            read: db.records.layout.scopes,
        },
    }
}

/// The first of the module's entries for the item.
pub fn name_of(db: &Snapshot, m: ModuleId, item: Item) -> Lookup
    ensures { ((A : List ℕ) → entry_of scope_at db.now.records.words.now result.entry ≡ name_of (snap_by db.now.records A) m.0 item)
        × ((A : List ℕ) → result.read ≡ name_reads (snap_by db.now.records A) m.0 item)
        × UpTo 8 (scope_base db.now.records.layout) db.now.records.layout.scopes result.entry result.read }
{
    names_of(db, m, item, false)
}

/// The first entry that passes the second test, which passes no more than the first; where there is none, the first that passes the first test,
/// with all records read. Both pass entries for the item alone.
pub fn preferred<F: Fn(usize) -> bool, G: Fn(usize) -> bool>(
    db: &Snapshot,
    item: Item,
    its: F,
    fresh: G,
) -> Lookup
    requires its { (i : ℕ) → i < db.now.records.layout.scopes → F.pre its (scope_base db.now.records.layout + scope_size * i) }
    requires fresh { (i : ℕ) → i < db.now.records.layout.scopes → G.pre fresh (scope_base db.now.records.layout + scope_size * i) }
    ensures { (q r : Scope → Bool) → ((h : ℕ) (t : Bool) → F.post its h t → t ≡ q (scope_at db.now.records.words.now h))
        → ((h : ℕ) (t : Bool) → G.post fresh h t → t ≡ r (scope_at db.now.records.words.now h)) → ((y : Scope) → q y ≡ false → r y ≡ false)
        → Keyed db.now.records.words.now db.now.records.layout item q
        → (entry_of scope_at db.now.records.words.now result.entry ≡ or_first (first_of r (scopes_in db.now.records.words.now db.now.records.layout))
        (first_of q (scopes_in db.now.records.words.now db.now.records.layout)))
        × (result.read ≡ reads_of r (scopes_in db.now.records.words.now db.now.records.layout)) }
{
    let key = item_key(item);
    let Some(it) = next_in_chain(db, Chain::Items, key, 0, fresh) else {
        return Lookup {
            entry: first_in_chain(db, Chain::Items, key, its),
            read: db.records.layout.scopes,
        };
    };
    Lookup {
        entry: Some(it.head),
        read: it.number + 1,
    }
}

/// The first of the entries of `names_of` that isn't deprecated; where there is none, the first of them, with all records read.
pub fn fresh_of(db: &Snapshot, m: ModuleId, item: Item, declared: bool) -> Lookup
    ensures { ((A : List ℕ) → entry_of scope_at db.now.records.words.now result.entry ≡ preferred true (snap_by db.now.records A)
        m.0 item (counts declared) (names_of (snap_by db.now.records A) m.0 item (counts declared)))
        × ((A : List ℕ) (n : ℕ) → result.read ≡ preferred_reads true (snap_by db.now.records A) m.0 item (counts declared) n) }
{
    let its = |h| is_entry(&db.records, h, m, item, declared);
    let fresh = |h| is_fresh(&db.records, h, m, item, declared);
    preferred(db, item, its, fresh)
}

/// The entry of `names_of`; by options bit 32 that of `fresh_of`.
pub fn entry_in(db: &Snapshot, m: ModuleId, item: Item, declared: bool, fresh: bool) -> Lookup
    ensures { ((A : List ℕ) → entry_of scope_at db.now.records.words.now result.entry ≡ entry_in (snap_by db.now.records A)
        item declared fresh m.0) × ((A : List ℕ) → result.read ≡ preferred_reads fresh (snap_by db.now.records A) m.0 item
        (counts declared) (names_reads (snap_by db.now.records A) m.0 item (counts declared))) }
{
    if fresh {
        return fresh_of(db, m, item, declared);
    }
    names_of(db, m, item, declared)
}

/// Whether the entry with its head at a place is the module's with that namespace and name.
#[inline]
pub fn is_named(words: &[u32], h: usize, m: ModuleId, ns: usize, name: Name) -> bool
    ensures { result ≡ is_named m.0 ns name.0 (scope_at words.now h) }
{
    (scope_owner(words, h) == m) & ((scope_ns(words, h) == ns) & (scope_name(words, h) == name))
}

/// The module's entry with that namespace and name.
// What is left of a search in a scope is the call of `first_in_chain` with a test.
pub fn get(db: &Snapshot, m: ModuleId, ns: usize, name: Name) -> Option<usize>
    ensures { (A : List ℕ) → entry_of scope_at db.now.records.words.now result ≡ entry_named (snap_by db.now.records A) m.0 ns name.0 }
{
    let test = |h| is_named(db.records.words, h, m, ns, name);
    first_in_chain(db, Chain::Modules, m.0, test)
}

/// Whether the entry with its head at a place is the module's, for a module in types.
pub fn is_module_entry(records: &Records, h: usize, m: ModuleId) -> bool
    ensures { (A : List ℕ) → result ≡ is_module_entry (snap_by records.now A) m.0 (scope_at records.now.words.now h) }
{
    if scope_owner(records.words, h) != m {
        return false;
    }
    let kind = known_kind_of(records, scope_definition(records.words, h));
    (scope_ns(records.words, h) == Namespace::TYPES) & (kind == Some(DefinitionKind::Module))
}

/// The next of the module's entries for a module in types, from the entry number k on, where k is 0 or follows one of its entries.
pub fn modules_in_scope(db: &Snapshot, k: usize, m: ModuleId) -> Option<Place>
    requires { (k ≤ db.now.records.layout.scopes) × Follows (key_of db.now.records.words.now db.now.records.layout Modules) m.0 k }
    ensures { (A : List ℕ) → NextOf (is_module_entry (snap_by db.now.records A) m.0) scope_at scope_size
        db.now.records.words.now (scope_base db.now.records.layout) db.now.records.layout.scopes k result }
{
    let test = |h| is_module_entry(&db.records, h, m);
    next_in_chain(db, Chain::Modules, m.0, k, test)
}
