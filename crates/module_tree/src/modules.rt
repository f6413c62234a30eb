//! Modules of an accepted snapshot: map, crate, parent, block and roots.
ghost use Rattle.std.specs.Prelude.{◌≡◌, ◌<◌, eqb};
ghost use Rattle.snapshot.specs.Ids.{plus_one};
ghost use Rattle.accept.specs.Opened.{snap_in};
ghost use Rattle.module_tree.specs.rules.Modules.{map_no, map_of, crate_of, parent_of, block_of, in_block as in_block_of};
ghost use Rattle.module_tree.specs.rules.Modules.{containing as containing_of, root_of};
ghost use Rattle.module_tree.specs.rules.Modules.{own_map, crate_root};

use accept::opened::Snapshot;
use snapshot::ids::{Crate, ModuleId, opt_module};
use snapshot::record::{map_block, map_crate, map_no_std};
use snapshot::table::{map_root, module_head, module_map, module_parent, own_map};

/// The map of a module.
pub fn map(db: &Snapshot, m: ModuleId) -> usize
    requires { m.0 < db.now.records.layout.modules }
    ensures { result ≡ map_no (snap_in db.now) m.0 }
{
    module_map(db.area, m)
}

/// The crate of a module.
pub fn krate(db: &Snapshot, m: ModuleId) -> Crate
    requires { m.0 < db.now.records.layout.modules }
    ensures { result.0 ≡ crate_of (snap_in db.now) m.0 }
{
    map_crate(db.records.words, module_head(db.area, m))
}

/// The parent of a module in its own map.
pub fn parent(db: &Snapshot, m: ModuleId) -> Option<ModuleId>
    requires { m.0 < db.now.records.layout.modules }
    ensures { plus_one result ≡ parent_of (snap_in db.now) m.0 }
{
    opt_module(module_parent(db.area, m))
}

/// The parent module of the block that a module's map belongs to.
pub fn block(db: &Snapshot, m: ModuleId) -> Option<ModuleId>
    requires { m.0 < db.now.records.layout.modules }
    ensures { plus_one result ≡ block_of (snap_in db.now) m.0 }
{
    opt_module(map_block(db.records.words, module_head(db.area, m)))
}

/// Whether a module stands in a block.
pub fn in_block(db: &Snapshot, m: ModuleId) -> bool
    requires { m.0 < db.now.records.layout.modules }
    ensures { result ≡ in_block_of (snap_in db.now) m.0 }
{
    block(db, m).is_some()
}

/// Whether a module's map is no_std.
pub fn no_std(db: &Snapshot, m: ModuleId) -> bool
    requires { m.0 < db.now.records.layout.modules }
    ensures { result ≡ eqb (map_of (snap_in db.now)
        (map_no (snap_in db.now) m.0)).no_std 1 }
{
    map_no_std(db.records.words, module_head(db.area, m)) == 1
}

/// The containing module: the parent, and from a map's root the block's parent.
pub fn containing_module(db: &Snapshot, m: ModuleId) -> Option<ModuleId>
    requires { m.0 < db.now.records.layout.modules }
    ensures { plus_one result ≡ containing_of (snap_in db.now) m.0 }
{
    let outward = || block(db, m);
    parent(db, m).or_else(outward)
}

/// The root of a map.
pub fn root(db: &Snapshot, map: usize) -> ModuleId
    requires { map < db.now.records.layout.maps }
    ensures { result.0 ≡ root_of (snap_in db.now) map }
{
    map_root(db.area, map)
}

/// The own map of a crate.
pub fn own(db: &Snapshot, c: Crate) -> usize
    requires { c.0 < db.now.records.layout.crates }
    ensures { (result ≡ own_map (snap_in db.now) c.0) × (result < db.now.records.layout.maps) }
{
    own_map(db.area, c) - 1
}

/// The root of a module's crate.
pub fn crate_root(db: &Snapshot, m: ModuleId) -> ModuleId
    requires { m.0 < db.now.records.layout.modules }
    ensures { result.0 ≡ crate_root (snap_in db.now) m.0 }
{
    let c = krate(db, m);
    root(db, own(db, c))
}
