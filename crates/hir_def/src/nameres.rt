//! Names in a module and around its blocks: the uses of `with_ancestor_maps`.

ghost use Rattle.std.specs.Prelude.{◌≡◌, List, ℕ, ◌<◌};
ghost use Rattle.snapshot.specs.Records.{scope_at};
ghost use Rattle.snapshot.specs.Laid.{snap_by};
ghost use Rattle.accept.specs.Opened.{snap_in};
ghost use Rattle.hir_def.specs.Nameres.{scope_entry, entry_named, is_other, occupied as occupied_by};
ghost use Rattle.hir_def.specs.Entries.{entry_of};

use crate::Item;
use crate::finds::nearest;
use crate::item_scope::{entry_in, get};
use crate::items::item_at;
use accept::opened::Snapshot;
use module_tree::modules::block;
use snapshot::ids::{ModuleId, Name, Namespace};
use snapshot::records::Records;

/// The item's entry in a module, or around its blocks: the first; only entries declared there where these alone count; by options bit 32
/// the first in its scope that isn't deprecated, if there is one.
// `declared_only` and `fresh` are what the context says of the question, and two variables of type Bool in the definition.
// No `View` here or below: the search's callers have `db` and the viewer's number of a context (`FindPathCtx`), and would make a view at each call.
pub fn scope_entry(
    db: &Snapshot,
    from: ModuleId,
    item: Item,
    declared_only: bool,
    fresh: bool,
) -> Option<usize>
    requires { from.0 < db.now.records.layout.modules }
    ensures { entry_of scope_at db.now.records.words.now result ≡ scope_entry (snap_in db.now)
        from.0 item declared_only fresh }
{
    let find = |m| entry_in(db, m, item, declared_only, fresh).entry;
    let outward = |m| block(db, m);
    nearest(from, find, outward)
}

/// The first entry with a namespace and a name in a module, or around its blocks.
// `scope_entry`, `read_back::entry_from` and those of seen entries call `nearest` too, each with a lookup and a step of its own: the call is all that
// they share.
pub fn entry_named(db: &Snapshot, from: ModuleId, ns: usize, name: Name) -> Option<usize>
    requires { from.0 < db.now.records.layout.modules }
    ensures { entry_of scope_at db.now.records.words.now result ≡ entry_named (snap_in db.now)
        from.0 ns name.0 }
{
    let find = |m| get(db, m, ns, name);
    let outward = |m| block(db, m);
    nearest(from, find, outward)
}

// Whether an entry stands for something else than a module.
// The negation of `find_path_rules::rule_lookups::same_here` for a module; each is stated over a definition of its own, and that one over a
// question's context.
fn is_other(records: &Records, e: Option<usize>, m: ModuleId) -> bool
    ensures { (A : List ℕ) → result ≡ is_other (snap_by records.now A) m.0 (entry_of scope_at records.now.words.now e) }
{
    let Some(h) = e else {
        return false;
    };
    item_at(records, h) != Item::Mod(m)
}

/// Whether a name is another thing's than a module's in types, in the module `from` or around its blocks.
// `loop`: it climbs out of blocks. `nearest` answers an entry, and here the entry that is found decides.
pub fn occupied(db: &Snapshot, from: ModuleId, m: ModuleId, name: Name) -> bool
    requires { from.0 < db.now.records.layout.modules }
    ensures { result ≡ occupied_by (snap_in db.now) from.0 m.0 name.0 }
{
    let mut a = from;
    loop {
        let e = get(db, a, Namespace::TYPES, name);
        if is_other(&db.records, e, m) {
            return true;
        }
        let Some(b) = block(db, a) else {
            return false;
        };
        a = b;
    }
}
