//! Small parts of the search, outside its cycles of calls.

ghost use Rattle.std.specs.Prelude.{◌≡◌, [], ◌∷◌, false};
ghost use Rattle.accept.specs.Opened.{snap_in};
ghost use Rattle.hir_def.specs.ImportMap.{import_info_for};
ghost use Rattle.find_path_choice.specs.Given.{given};
ghost use Rattle.find_path_spec.specs.Charged.{is_stable, langs};
ghost use Rattle.snapshot.specs.Ids.{plus_one};
ghost use Rattle.snapshot.specs.Origins.{origin_number};
ghost use Rattle.find_path.specs.search_parts.Parts.{straight};

use accept::opened::Snapshot;
use find_path_choice::Choice;
use hir_def::Item;
use hir_def::import_map::import_info_for;
use snapshot::ids::{Crate, CrateOrigin, ModuleId};

/// Whether a choice ends the search of the sysroot.
pub fn is_stable(c: Option<Choice>) -> bool
    ensures { result ≡ is_stable (given c) }
{
    match c {
        Some(c) => c.stable,
        None => false,
    }
}

/// Three origins, in the order in which their crates are tried.
#[derive(Clone, Copy)]
pub struct Langs {
    pub first: CrateOrigin,
    pub second: CrateOrigin,
    pub third: CrateOrigin,
}

/// The origins for a crate that prefers no_std, or not.
// `nostd`, and `std` of `straight_of`, are fields of the context, where the Rust has bools too.
pub fn langs_for(nostd: bool) -> Langs
    ensures { origin_number result.first ∷ origin_number result.second ∷ origin_number result.third ∷ [] ≡ langs nostd }
{
    if nostd {
        return Langs {
            first: CrateOrigin::Core,
            second: CrateOrigin::Alloc,
            third: CrateOrigin::Std,
        };
    }
    Langs {
        first: CrateOrigin::Std,
        second: CrateOrigin::Core,
        third: CrateOrigin::Alloc,
    }
}

/// The module that the module search is asked for at once.
pub fn straight_of(std: bool, item: Item) -> Option<ModuleId>
    ensures { plus_one result ≡ straight std item }
{
    if std {
        return None;
    }
    match item {
        Item::Mod(m) => Some(m),
        Item::Def(_, _) => None,
    }
}

/// Whether the crate imports the item.
pub fn is_imported(db: &Snapshot, c: Crate, item: Item) -> bool
    ensures { result ≡ false → import_info_for (snap_in db.now) c.0 item ≡ [] }
{
    import_info_for(db, 0, c, item).is_some()
}
