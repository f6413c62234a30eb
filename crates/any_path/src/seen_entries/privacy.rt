//! The privacy of the Rust Reference.
ghost use Rattle.std.specs.Prelude.{◌≡◌, ◌<◌, ◌≤◌};
ghost use Rattle.snapshot.specs.Ids.{plus_one};
ghost use Rattle.snapshot.specs.Visibilities.{visibility_kind, visibility_number};
ghost use Rattle.accept.specs.Opened.{snap_in};
ghost use Rattle.module_tree.specs.rules.Privately.{block_step, module_around, privately as privately_of};
ghost use Rattle.nameable.specs.Seen.{holds as holds_of};

use accept::opened::Snapshot;
use hir_def::View;
use module_tree::modules::{block, krate, parent};
use module_tree::visibility::meets;
use snapshot::ids::{ModuleId, Visibility};

/// The block's parent of a block map's root, none of any other module.
// Privacy's own step: `read_back::outward` is that of reading names, defined elsewhere.
pub fn block_step(db: &Snapshot, m: ModuleId) -> Option<ModuleId>
    requires { m.0 < db.now.records.layout.modules }
    ensures { plus_one result ≡ block_step (snap_in db.now) m.0 }
{
    match parent(db, m) {
        Some(_) => None,
        None => block(db, m),
    }
}

/// The module in which a recorded module stands: itself, or the one around the block whose map it is the root of.
// It climbs, as the loop of `read_back::stands_for` does, to another definition; `nearest` looks for an entry on the way, and here the end is
// asked for.
pub fn module_around(db: &Snapshot, m: ModuleId) -> ModuleId
    requires { m.0 < db.now.records.layout.modules }
    ensures { (result.0 ≡ module_around (snap_in db.now) m.0) × (result.0 < db.now.records.layout.modules) }
{
    let mut t = m;
    loop {
        let Some(b) = block_step(db, t) else {
            return t;
        };
        t = b;
    }
}

// Whether what is visible in the target is visible from the viewer.
fn privately(view: &View, target: ModuleId) -> bool
    requires { target.0 < view.now.db.records.layout.modules }
    ensures { result ≡ privately_of (snap_in view.now.db) view.now.from.0 target.0 }
{
    let t = module_around(&view.db, target);
    meets(&view.db, view.from, t)
}

/// Whether a visibility holds in the viewing module.
// By the Reference's privacy and not by the walk of `is_visible_from`: what they differ in is stated of two functions.
pub fn holds(view: &View, visibility: Visibility) -> bool
    requires { 2 ≤ visibility_kind visibility → visibility_number visibility < view.now.db.records.layout.modules }
    ensures { result ≡ holds_of (snap_in view.now.db) (visibility_kind visibility)
        (visibility_number visibility) view.now.from.0 }
{
    match visibility {
        Visibility::Public => true,
        Visibility::InCrate(c) => krate(&view.db, view.from) == c,
        Visibility::InModule(m) | Visibility::Implied(m) => privately(view, m),
    }
}
