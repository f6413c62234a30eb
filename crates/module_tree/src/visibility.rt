//! Whether something is visible from a module.
ghost use Rattle.std.specs.Prelude.{◌≡◌, ◌<◌, ◌≤◌};
ghost use Rattle.snapshot.specs.Visibilities.{visibility_kind, visibility_number};
ghost use Rattle.accept.specs.Opened.{snap_in};
ghost use Rattle.module_tree.specs.rules.Modules.{containing as containing_of};
ghost use Rattle.module_tree.specs.rules.Visibility.{climb as climb_of, met as met_of, in_module, is_visible_from};

use crate::modules::{block, containing_module, krate, map};
use accept::opened::Snapshot;
use snapshot::ids::{ModuleId, Visibility};

// The target, climbed out of block maps until its map is the viewer's or a crate's own.
// `while`: it climbs, so the next module is read; so in `meets`.
fn climb(db: &Snapshot, viewer: usize, target: ModuleId) -> ModuleId
    requires { target.0 < db.now.records.layout.modules }
    ensures { (result.0 ≡ climb_of (snap_in db.now) viewer target.0) × (result.0 < db.now.records.layout.modules) }
{
    let mut t = target;
    while map(db, t) != viewer {
        let Some(b) = block(db, t) else {
            return t;
        };
        t = b;
    }
    t
}

/// Whether a module is met on the way from the viewer through its containing modules.
// `while`, as in `climb`.
pub fn meets(db: &Snapshot, viewer: ModuleId, target: ModuleId) -> bool
    requires { viewer.0 < db.now.records.layout.modules }
    ensures { result ≡ met_of (containing_of (snap_in db.now)) viewer.0 target.0 }
{
    let mut v = viewer;
    let t = target.0;
    while v.0 != t {
        let Some(c) = containing_module(db, v) else {
            return false;
        };
        v = c;
    }
    true
}

// Whether what is visible in the target is visible from the viewer.
fn in_module(db: &Snapshot, viewer: ModuleId, target: ModuleId) -> bool
    requires { (viewer.0 < db.now.records.layout.modules) × (target.0 < db.now.records.layout.modules) }
    ensures { result ≡ in_module (snap_in db.now) viewer.0 target.0 }
{
    if viewer == target {
        return true;
    }
    if krate(db, viewer) != krate(db, target) {
        return false;
    }
    let m = map(db, viewer);
    let top = climb(db, m, target);
    meets(db, viewer, top)
}

/// Whether a visibility reaches the viewer.
// The walk of the Rust; privacy (`seen_entries`) has arms of its own, and a theorem compares the two.
pub fn is_visible_from(db: &Snapshot, visibility: Visibility, viewer: ModuleId) -> bool
    requires { (viewer.0 < db.now.records.layout.modules)
        × (2 ≤ visibility_kind visibility → visibility_number visibility < db.now.records.layout.modules) }
    ensures { result ≡ is_visible_from (snap_in db.now) (visibility_kind visibility)
        (visibility_number visibility) viewer.0 }
{
    match visibility {
        Visibility::Public => true,
        Visibility::InCrate(c) => krate(db, viewer) == c,
        Visibility::InModule(m) | Visibility::Implied(m) => in_module(db, viewer, m),
    }
}
