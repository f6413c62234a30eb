//! The edition in which a path is written.
ghost use Rattle.std.specs.Prelude.{◌≡◌};
ghost use Rattle.accept.specs.Opened.{snap_in};
ghost use Rattle.find_path_spec.specs.Line.{edition_in};

use accept::opened::Snapshot;
use hir_def::items::edition_of;
use module_tree::modules::krate;
use snapshot::ids::ModuleId;

/// The edition of a module's crate, 0 where there is no such module.
pub(crate) fn edition_in(db: &Snapshot, m: ModuleId) -> usize
    ensures { result ≡ edition_in (snap_in db.now) m.0 }
{
    if db.records.layout.modules <= m.0 {
        return 0;
    }
    edition_of(&db.records, krate(db, m))
}
