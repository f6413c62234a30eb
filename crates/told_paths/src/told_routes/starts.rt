//! The module that a path's keyword means.
ghost use Rattle.std.specs.Prelude.{◌≡◌, ◌<◌};
ghost use Rattle.accept.specs.Opened.{snap_in};
ghost use Rattle.hir_def.specs.Items.{types};
ghost use Rattle.nameable.specs.Paths.{keyword, above as module_above, module_named, reads, item_in};
ghost use Rattle.told_paths.specs.told_routes.Routes.{keyword_by};

use accept::opened::Snapshot;
use any_path::seen_entries::privacy::module_around;
use hir_def::{Item, View};
use module_tree::modules::{crate_root, parent};
use snapshot::ids::{ModuleId, PathKind};

// The module so many times above another.
fn above(db: &Snapshot, m: ModuleId, supers: usize) -> Option<Item>
    requires { m.0 < db.now.records.layout.modules }
    ensures { result ≡ item_in (module_named (module_above (snap_in db.now) supers m.0)) }
{
    let mut at = m;
    for _step in 0..supers {
        let p = parent(db, at)?;
        at = module_around(db, p);
    }
    Some(Item::Mod(at))
}

/// What a path of that kind means before its first name.
pub(crate) fn start(view: &View, kind: PathKind, supers: usize) -> Option<Item>
    ensures { result ≡ item_in (reads (snap_in view.now.db) view.now.from.0 types (keyword (keyword_by kind supers))) }
{
    let db = &view.db;
    match kind {
        PathKind::Crate => Some(Item::Mod(crate_root(db, view.from))),
        PathKind::Plain | PathKind::SelfModule | PathKind::Super | PathKind::Absolute => {
            above(db, module_around(db, view.from), supers)
        }
    }
}
