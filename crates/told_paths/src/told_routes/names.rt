//! What a single name means, and by which record.
ghost use Rattle.std.specs.Prelude.{◌≡◌, List, ℕ, ◌<◌};
ghost use Rattle.std.specs.Prelude.{Option};
ghost use Rattle.snapshot.specs.Records.{scope_at, extern_at};
ghost use Rattle.snapshot.specs.Laid.{snap_by};
ghost use Rattle.accept.specs.Opened.{snap_in};
ghost use Rattle.hir_def.specs.Items.{types};
ghost use Rattle.nameable.specs.Paths.{Path, absolute, plain, Named, named, as_named, entries_in, variants_in, extern_named, within, after, reads};
ghost use Rattle.nameable.specs.Paths.{item_in};
ghost use Rattle.told_paths.specs.told_routes.Routes.{next_path, meaning_of, Answers};

use crate::told_routes::Meaning;
use accept::opened::Snapshot;
use any_path::plain::{Reading, read_plain};
use any_path::seen_entries::lookups::entry_named;
use hir_def::items::{definition_head, edition_of, item_at};
use hir_def::{Item, View};
use module_tree::modules::krate;
use read_back::lookups::{extern_named, variant_named};
use snapshot::ids::{DefinitionId, ModuleId, Name, Namespace, PathKind};
use snapshot::record::{extern_target, member_definition};
use snapshot::records::Records;

// By the entry with its head at a place.
fn by_entry(records: &Records, h: usize) -> Meaning
    ensures { (A : List ℕ) → result ≡ meaning_of (as_named (snap_by records.now A) (scope_at records.now.words.now h)) }
{
    let item = item_at(records, h);
    Meaning { item, place: h }
}

// By the extern with its head at a place.
fn by_extern(words: &[u32], h: usize) -> Meaning
    ensures { result ≡ meaning_of (extern_named (extern_at words.now h)) }
{
    let m = extern_target(words, h);
    Meaning {
        item: Item::Mod(m),
        place: h,
    }
}

// A name alone.
fn read_alone(view: &View, ns: usize, name: Name) -> Option<Meaning>
    ensures { Answers (reads (snap_in view.now.db) view.now.from.0 ns (plain name.0)) result }
{
    let its = match read_plain(view, ns, name)? {
        Reading::Scope(h) => by_entry(&view.db.records, h),
        Reading::Extern(h) => by_extern(view.db.records.words, h),
    };
    Some(its)
}

// A name after `::`, in edition 2015 none.
fn read_absolute(view: &View, ns: usize, name: Name) -> Option<Meaning>
    ensures { Answers (reads (snap_in view.now.db) view.now.from.0 ns (absolute name.0)) result }
{
    let records = &view.db.records;
    let c = krate(&view.db, view.from);
    if edition_of(records, c) == 2015 {
        return None;
    }
    if ns != Namespace::TYPES {
        return None;
    }
    let h = extern_named(records, c, name)?;
    Some(by_extern(records.words, h))
}

// By a seen entry of the module.
fn in_module(view: &View, m: ModuleId, ns: usize, name: Name) -> Option<Meaning>
    ensures { Answers (named name.0 (entries_in (snap_in view.now.db) view.now.from.0 ns m.0)) result }
{
    let h = entry_named(view, m, ns, name)?;
    Some(by_entry(&view.db.records, h))
}

// By a variant of the enum; the record is the variant's definition.
fn in_enum(db: &Snapshot, d: DefinitionId, ns: usize, name: Name) -> Option<Meaning>
    ensures { Answers (named name.0 (variants_in (snap_in db.now) ns d.0)) result }
{
    if Namespace::MACROS <= ns {
        return None;
    }
    let h = variant_named(&db.records, d, name)?;
    let its = member_definition(db.records.words, h);
    let place = definition_head(&db.records, its);
    Some(Meaning {
        item: Item::Def(Namespace(ns), its),
        place,
    })
}

// A name after an item.
fn in_item(view: &View, item: Item, ns: usize, name: Name) -> Option<Meaning>
    ensures { Answers (named name.0 (within (snap_in view.now.db) view.now.from.0 ns item)) result }
{
    match item {
        Item::Mod(m) => in_module(view, m, ns, name),
        Item::Def(_, d) => in_enum(&view.db, d, ns, name),
    }
}

// A name after what the names before it mean.
fn read_after(view: &View, here: Option<Item>, ns: usize, name: Name) -> Option<Meaning>
    ensures { (o : Option Named) → here ≡ item_in o
        → Answers (after o (λ x. named name.0 (within (snap_in view.now.db) view.now.from.0 ns x))) result }
{
    let x = here?;
    in_item(view, x, ns, name)
}

/// The name number k of a path of that kind, after what the names before it mean.
pub(crate) fn read_name(
    view: &View,
    kind: PathKind,
    k: usize,
    here: Option<Item>,
    ns: usize,
    name: Name,
) -> Option<Meaning>
    ensures { (p : Path) → here ≡ item_in (reads (snap_in view.now.db) view.now.from.0 types p)
        → Answers (reads (snap_in view.now.db) view.now.from.0 ns (next_path kind k p name.0)) result }
{
    if 0 < k {
        return read_after(view, here, ns, name);
    }
    match kind {
        PathKind::Plain => read_alone(view, ns, name),
        PathKind::Absolute => read_absolute(view, ns, name),
        PathKind::SelfModule | PathKind::Super | PathKind::Crate => {
            read_after(view, here, ns, name)
        }
    }
}
