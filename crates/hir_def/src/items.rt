//! Definitions, crates and items of a snapshot, after lib.rs.
ghost use Rattle.std.specs.Prelude.{◌≡◌, List, ℕ, eqb};
ghost use Rattle.snapshot.specs.Records.{crate_at, definition_at, scope_at};
ghost use Rattle.snapshot.specs.DefinitionKinds.{definition_kind_of};
ghost use Rattle.snapshot.specs.Ids.{plus_one};
ghost use Rattle.snapshot.specs.Laid.{snap_by};
ghost use Rattle.hir_def.specs.Items.{definition_of, crate_data, is_lang, item_of, ns_of, home_by, home_of};
ghost use Rattle.hir_def.specs.Entries.{ReadsAs};

use crate::Item;
use snapshot::ids::{Crate, CrateOrigin, DefinitionId, DefinitionKind, ModuleId, Namespace};
use snapshot::kind::Size;
use snapshot::record::{
    crate_edition, crate_no_std, crate_origin, definition_first, definition_kind,
    definition_second, known_definition_kind, scope_definition, scope_ns,
};
use snapshot::records::Records;

/// The place of a definition's head; past the words, which read as 0, where there is no such definition.
#[inline]
pub fn definition_head(records: &Records, d: DefinitionId) -> usize
    ensures { (A : List ℕ) → ReadsAs records.now.words.now result (definition_of (snap_by records.now A) d.0) }
{
    if records.layout.definitions <= d.0 {
        return records.words.len();
    }
    records.layout.definition_base() + Size::DEFINITION * d.0
}

/// The place of a crate's head; past the words, which read as 0, where there is no such crate.
// Another count, base and size than `definition_head`: with these three as parameters each call would say as much as this body.
pub fn crate_head(records: &Records, c: Crate) -> usize
    ensures { (A : List ℕ) → crate_at records.now.words.now result ≡ crate_data (snap_by records.now A) c.0 }
{
    if records.layout.crates <= c.0 {
        return records.words.len();
    }
    records.layout.text + Size::CRATE * c.0
}

/// The number of a definition's kind, 0 where there is no such definition.
#[inline]
pub fn kind_of(records: &Records, d: DefinitionId) -> usize
    ensures { (A : List ℕ) → result ≡ (definition_of (snap_by records.now A) d.0).kind }
{
    definition_kind(records.words, definition_head(records, d))
}

/// The kind of a definition, none where there is no such definition.
pub fn known_kind_of(records: &Records, d: DefinitionId) -> Option<DefinitionKind>
    ensures { (A : List ℕ) → result ≡ definition_kind_of (definition_of (snap_by records.now A) d.0).kind }
{
    DefinitionKind::of(kind_of(records, d))
}

/// The first field of a definition, 0 where there is none.
pub fn first_of(records: &Records, d: DefinitionId) -> usize
    ensures { (A : List ℕ) → result ≡ (definition_of (snap_by records.now A) d.0).first }
{
    definition_first(records.words, definition_head(records, d))
}

/// The second field of a definition, 0 where there is none.
pub fn second_of(records: &Records, d: DefinitionId) -> usize
    ensures { (A : List ℕ) → result ≡ (definition_of (snap_by records.now A) d.0).second }
{
    definition_second(records.words, definition_head(records, d))
}

/// The origin of a crate, 0 where there is none.
// A number: the words may be any, and a public answer tells each number that a record may have, of which a `CrateOrigin` is five.
pub fn origin_of(records: &Records, c: Crate) -> usize
    ensures { (A : List ℕ) → result ≡ (crate_data (snap_by records.now A) c.0).origin }
{
    crate_origin(records.words, crate_head(records, c))
}

/// Whether a crate supports no_std.
pub fn supports_no_std(records: &Records, c: Crate) -> bool
    ensures { (A : List ℕ) → result ≡ eqb (crate_data (snap_by records.now A) c.0).no_std 1 }
{
    crate_no_std(records.words, crate_head(records, c)) == 1
}

/// The edition of a crate, 0 where there is none.
pub fn edition_of(records: &Records, c: Crate) -> usize
    ensures { (A : List ℕ) → result ≡ (crate_data (snap_by records.now A) c.0).edition }
{
    crate_edition(records.words, crate_head(records, c))
}

/// Whether a crate is core, alloc, std or another language's.
pub fn is_lang(records: &Records, c: Crate) -> bool
    ensures { (A : List ℕ) → result ≡ is_lang (snap_by records.now A) c.0 }
{
    origin_of(records, c) != CrateOrigin::Ordinary as usize
}

/// The item that a definition is in a namespace.
#[inline]
pub fn item_of(records: &Records, ns: usize, d: DefinitionId) -> Item
    ensures { (A : List ℕ) → result ≡ item_of (snap_by records.now A) ns d.0 }
{
    let h = definition_head(records, d);
    if (ns == Namespace::TYPES)
        & (known_definition_kind(records.words, h) == Some(DefinitionKind::Module))
    {
        return Item::Mod(ModuleId(definition_first(records.words, h)));
    }
    Item::Def(Namespace(ns), d)
}

/// The item of the scope entry with its head at a place.
#[inline]
pub fn item_at(records: &Records, h: usize) -> Item
    ensures { (A : List ℕ) → result ≡ item_of (snap_by records.now A) (scope_at records.now.words.now h).ns
        (scope_at records.now.words.now h).definition }
{
    let ns = scope_ns(records.words, h);
    item_of(records, ns, scope_definition(records.words, h))
}

/// The number of an item's namespace; a module is in that of types.
pub fn ns_of(item: Item) -> usize
    ensures { result ≡ ns_of item }
{
    match item {
        Item::Mod(_) => Namespace::TYPES,
        Item::Def(ns, _) => ns.0,
    }
}

// The home of the definition with its head at a place.
fn home_at(records: &Records, h: usize) -> Option<ModuleId>
    ensures { (A : List ℕ) → plus_one result ≡ home_by (snap_by records.now A) (definition_at records.now.words.now h).kind
        (definition_at records.now.words.now h).first }
{
    let kind = known_definition_kind(records.words, h);
    let first = definition_first(records.words, h);
    if kind == Some(DefinitionKind::Builtin) {
        return None;
    }
    if kind == Some(DefinitionKind::Variant) {
        let parent = definition_head(records, DefinitionId(first));
        return Some(ModuleId(definition_first(records.words, parent)));
    }
    Some(ModuleId(first))
}

/// The home of an item: its module, a module itself, its parent's for a variant; none for a builtin.
pub fn home_of(records: &Records, item: Item) -> Option<ModuleId>
    ensures { (A : List ℕ) → plus_one result ≡ home_of (snap_by records.now A) item }
{
    match item {
        Item::Mod(m) => Some(m),
        Item::Def(_, d) => home_at(records, definition_head(records, d)),
    }
}
