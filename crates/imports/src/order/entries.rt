//! The order of a module's entries: by text, then types, values, macros.
ghost use Rattle.std.specs.Prelude.{◌≡◌};
ghost use Rattle.snapshot.specs.Records.{scope_at};
ghost use Rattle.accept.specs.Opened.{snap_in};
ghost use Rattle.import_rules.specs.Collect.{entry_before as entry_before_of};

use crate::order::texts::text_before;
use accept::opened::Snapshot;
use snapshot::record::{scope_name, scope_ns};

/// Whether an entry stands before another, by their heads.
pub fn entry_before(db: &Snapshot, a: usize, b: usize) -> bool
    ensures { result ≡ entry_before_of (snap_in db.now) (scope_at db.now.records.words.now a)
        (scope_at db.now.records.words.now b) }
{
    let x = scope_name(db.records.words, a);
    let y = scope_name(db.records.words, b);
    let namespace = scope_ns(db.records.words, a) < scope_ns(db.records.words, b);
    if x == y {
        return namespace;
    }
    if text_before(db, x, y) {
        return true;
    }
    let after = text_before(db, y, x);
    !after & namespace
}
