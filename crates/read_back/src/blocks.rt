//! Out of blocks: the scopes that a first name is looked for in, and the module that a block's root stands for.
ghost use Rattle.std.specs.Prelude.{◌≡◌, ◌<◌};
ghost use Rattle.snapshot.specs.Ids.{plus_one};
ghost use Rattle.snapshot.specs.Records.{scope_at};
ghost use Rattle.accept.specs.Opened.{snap_in};
ghost use Rattle.hir_def.specs.Entries.{entry_of};
ghost use Rattle.read_back.specs.readings.Reads.{outward as outward_of, stands_for, entry_from};

use accept::opened::Snapshot;
use hir_def::View;
use hir_def::finds::nearest;
use hir_def::item_scope::get;
use module_tree::modules::{block, parent};
use snapshot::ids::{ModuleId, Name};

// The block's parent of a block map's root, none of any other module.
// `any_path::seen_entries::privacy::block_step` is the same step, of `module_tree`, which defines privacy; this is of `readings`, which defines
// how names are read: two definitions, so that a change of one is no change of the other.
fn outward(db: &Snapshot, m: ModuleId) -> Option<ModuleId>
    requires { m.0 < db.now.records.layout.modules }
    ensures { plus_one result ≡ outward_of (snap_in db.now) m.0 }
{
    match parent(db, m) {
        Some(_) => None,
        None => block(db, m),
    }
}

/// The module, or where it is a block map's root the one that this stands for.
// Over `outward`; `module_around` is over privacy's step, and its clause is of that definition.
// `loop`: it climbs out of blocks; `nearest` looks for an entry on the way, and here the end is asked for.
pub(crate) fn stands_for(db: &Snapshot, m: ModuleId) -> ModuleId
    requires { m.0 < db.now.records.layout.modules }
    ensures { (result.0 ≡ stands_for (snap_in db.now) m.0) × (result.0 < db.now.records.layout.modules) }
{
    let mut t = m;
    loop {
        let Some(b) = outward(db, t) else {
            return t;
        };
        t = b;
    }
}

/// The first entry with a namespace and a name in a module or, out of blocks, in the modules around it.
pub(crate) fn entry_from(view: &View, ns: usize, name: Name) -> Option<usize>
    ensures { entry_of scope_at view.now.db.records.words.now result ≡ entry_from (snap_in view.now.db) view.now.from.0 ns name.0 }
{
    let find = |m| get(&view.db, m, ns, name);
    let step = |m| outward(&view.db, m);
    nearest(view.from, find, step)
}
