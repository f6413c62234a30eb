//! Externs, preludes and dependencies: what the search asks of nameres.rs and of the crate graph.

ghost use Rattle.std.specs.Prelude.{◌≡◌, List, ◌&&◌, ℕ};
ghost use Rattle.snapshot.specs.Sizes.{dependency_size};
ghost use Rattle.snapshot.specs.Records.{dependency_at, prelude_at, extern_at};
ghost use Rattle.snapshot.specs.Layouts.{dependency_base};
ghost use Rattle.snapshot.specs.Laid.{snap_by};
ghost use Rattle.hir_def.specs.Nameres.{is_extern, is_dependency, is_lang_sysroot, extern_of, prelude_of, lang_of};
ghost use Rattle.hir_def.specs.Entries.{entry_of, NextOf};
ghost use Rattle.hir_def.specs.crate_graph.Among.{among};

use crate::Place;
use crate::finds::{first_where, next_within};
use crate::items::origin_of;
use crate::spans::{dependencies, part_of, preludes};
use accept::opened::Snapshot;
use snapshot::ids::{Crate, ModuleId};
use snapshot::kind::Size;
use snapshot::record::{
    dependency_crate, dependency_owner, dependency_sysroot, extern_owner, extern_target,
    prelude_map,
};
use snapshot::records::Records;
use snapshot::table::Tables;

// Whether the extern with its head at a place is one of the crate's, naming the module.
fn is_extern(words: &[u32], h: usize, c: Crate, m: ModuleId) -> bool
    ensures { result ≡ is_extern c.0 m.0 (extern_at words.now h) }
{
    (extern_owner(words, h) == c) & (extern_target(words, h) == m)
}

/// The last of the crate's externs that names the module: they are read backwards.
// `base + size * k` as in a `Span`: a method for it would be this sum under a name.
pub fn extern_of(db: &Snapshot, c: Crate, m: ModuleId) -> Option<usize>
    ensures { (A : List ℕ) → entry_of extern_at db.now.records.words.now result ≡ extern_of (snap_by db.now.records A) c.0 m.0 }
{
    let base = db.records.layout.extern_base();
    let part = part_of(db, Tables::EXTERNS, c);
    for k in (part.low..part.high.min(db.records.layout.externs)).rev() {
        let h = base + Size::EXTERN * k;
        if is_extern(db.records.words, h, c, m) {
            return Some(h);
        }
    }
    None
}

/// The prelude of a map.
// `first_where` with the span and the test of a kind, as the lookups of `item_scope`, `import_map`, `read_back`, `seen_entries` and
// `arrivals` are: no more is left of any.
pub fn prelude_of(records: &Records, map: usize) -> Option<usize>
    ensures { (A : List ℕ) → entry_of prelude_at records.now.words.now result ≡ prelude_of (snap_by records.now A) map }
{
    let test = |h| prelude_map(records.words, h) == map;
    first_where(preludes(records), test)
}

/// Which dependencies of a crate: all, those that are in the sysroot, or the others.
// Three cases, where an `Option<bool>` would not name them.
#[derive(Clone, Copy)]
pub enum Which {
    All,
    Sysroot,
    Others,
}

// Whether the dependency with its head at a place is one of these of the crate.
fn is_among(words: &[u32], h: usize, c: Crate, which: Which) -> bool
    ensures { result ≡ among c.0 which (dependency_at words.now h) }
{
    if dependency_owner(words, h) != c {
        return false;
    }
    match which {
        Which::All => true,
        Which::Sysroot => dependency_sysroot(words, h) == 1,
        Which::Others => dependency_sysroot(words, h) != 1,
    }
}

/// The next of these dependencies of the crate, from the dependency number k on.
pub fn next_dependency(db: &Snapshot, k: usize, c: Crate, which: Which) -> Option<Place>
    ensures { NextOf (among c.0 which) dependency_at dependency_size db.now.records.words.now
        (dependency_base db.now.records.layout) db.now.records.layout.dependencies k result }
{
    let test = |h| is_among(db.records.words, h, c, which);
    let part = part_of(db, Tables::DEPENDENCIES, c);
    next_within(dependencies(&db.records), k, part.low, part.high, test)
}

// Whether the dependency with its head at a place is one of the crate's, in the sysroot, of that origin.
fn is_lang_sysroot(records: &Records, h: usize, c: Crate, lang: usize) -> bool
    ensures { (A : List ℕ)
        → result ≡ (is_dependency c.0 (dependency_at records.now.words.now h) && is_lang_sysroot (snap_by records.now A) lang
        (dependency_at records.now.words.now h)) }
{
    let inside = dependency_sysroot(records.words, h) == 1;
    let origin = origin_of(records, dependency_crate(records.words, h));
    (dependency_owner(records.words, h) == c) & (inside & (origin == lang))
}

/// The first of the crate's sysroot dependencies whose origin has that number.
// `lang` is the number of a `CrateOrigin`, and no enum: a public parameter that takes any number may not take fewer.
pub fn lang_of(db: &Snapshot, c: Crate, lang: usize) -> Option<usize>
    ensures { (A : List ℕ) → entry_of dependency_at db.now.records.words.now result ≡ lang_of (snap_by db.now.records A) c.0 lang }
{
    let test = |h| is_lang_sysroot(&db.records, h, c, lang);
    let part = part_of(db, Tables::DEPENDENCIES, c);
    let next = next_within(dependencies(&db.records), 0, part.low, part.high, test)?;
    Some(next.head)
}
