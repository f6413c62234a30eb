//! The place of the record by which the last name of a row's path is read.
ghost use Rattle.std.specs.Prelude.{◌≡◌, List, ℕ, ◌<◌};
ghost use Rattle.std.specs.Prelude.{option_map};
ghost use Rattle.snapshot.specs.Records as lists;
ghost use Rattle.snapshot.specs.Records.{scope_at, extern_at};
ghost use Rattle.accept.specs.Opened.{snap_in};
ghost use Rattle.hir_def.specs.Entries.{entry_of};
ghost use Rattle.hir_def.specs.Items.{types};
ghost use Rattle.nameable.specs.Paths.{as_named, extern_named, reads, place_in};
ghost use Rattle.any_path.specs.Rows.{path_at, InRun};

use crate::plain::{externs_named, place_read, read_plain};
use crate::rows::Row;
use crate::seen_entries::lookups::entry_named;
use hir_def::View;
use snapshot::ids::{ModuleId, Name, Namespace};
use snapshot::reading::word;

// The place of an entry or an extern, 0 for none: a row holds it as a word of the work area.
fn entry_place(e: Option<usize>) -> usize
    ensures { (s : lists.Snapshot) (W : List ℕ) → (result ≡ place_in (option_map (as_named s) (entry_of scope_at W e)))
        × (result ≡ place_in (option_map extern_named (entry_of extern_at W e))) }
{
    e.unwrap_or(0)
}

/// The place of the record by which the last name of the path of the row number i is read, 0 for a keyword. It is looked up again: a path
/// has few names.
pub fn row_place(view: &View, i: usize) -> usize
    requires { InRun (snap_in view.now.db) view.now.from.0 view.now.db.records.layout.modules view.now.db.area.now i }
    ensures { result ≡ place_in (reads (snap_in view.now.db) view.now.from.0 types (path_at view.now.db.area.now i)) }
{
    let area = view.db.area;
    let at = Row::BASE + Row::SIZE * i;
    let link = word(area, at + 1);
    let name = Name(word(area, at + 2));
    if link == 0 {
        return 0;
    }
    if link == 1 {
        return entry_place(externs_named(view, Namespace::TYPES, name));
    }
    if link == 2 {
        return place_read(read_plain(view, Namespace::TYPES, name));
    }
    let m = ModuleId(word(area, Row::BASE + Row::SIZE * (link - 3)));
    entry_place(entry_named(view, m, Namespace::TYPES, name))
}
