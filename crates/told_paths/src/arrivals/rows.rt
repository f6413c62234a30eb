//! The row of a module, and the first row in whose module an item is seen.
ghost use Rattle.std.specs.Prelude.{ℕ, ◌≤◌, ◌<◌};
ghost use Rattle.snapshot.specs.Limits.{module_limit};
ghost use Rattle.snapshot.specs.Records as lists;
ghost use Rattle.accept.specs.Valid.{Each};
ghost use Rattle.accept.specs.Opened.{snap_in};
ghost use Rattle.hir_def.specs.Items.{types, ns_of};
ghost use Rattle.nameable.specs.Breadth.{onward, first_to};
ghost use Rattle.any_path.specs.Rows.{run_at, Run, Meant};
ghost use Rattle.told_paths.specs.arrivals.Steps.{way_of, LeadsTo};

use crate::arrivals::LastStep;
use any_path::rows::Row;
use any_path::seen_entries::lookups::entry_for;
use hir_def::{Item, View};
use snapshot::ids::ModuleId;
use snapshot::reading::word;
use snapshot::record::scope_name;

// The path of the module's row, of n rows.
// Of the rows in the area n are used; the clauses of the run are stated over the area and n.
pub(crate) fn row_of(area: &[u32], n: usize, m: ModuleId) -> Option<LastStep>
    requires { n ≤ module_limit }
    ensures { (s : lists.Snapshot) (from modules : ℕ) → Run modules area.now n
        → LeadsTo s from types area.now n (way_of m.0 (run_at area.now n)) result }
{
    for i in 0..n {
        let at = Row::BASE + Row::SIZE * i;
        if word(area, at) == m.0 {
            return Some(LastStep {
                link: word(area, at + 1),
                name: word(area, at + 2),
                at: word(area, at + 3),
            });
        }
    }
    None
}

// One name more after the first of n rows whose module has a seen entry for the item.
pub(crate) fn by_rows(view: &View, n: usize, item: Item) -> Option<LastStep>
    requires { (n ≤ module_limit) × Each (Meant (snap_in view.now.db) view.now.from.0) (run_at view.now.db.area.now n) }
    ensures { LeadsTo (snap_in view.now.db) view.now.from.0 (ns_of item) view.now.db.area.now n
        (first_to (snap_in view.now.db) view.now.from.0 item
        (onward (snap_in view.now.db) view.now.from.0 (ns_of item) (run_at view.now.db.area.now n))) result }
{
    for i in 0..n {
        let m = ModuleId(word(view.db.area, Row::BASE + Row::SIZE * i));
        if let Some(h) = entry_for(view, m, item) {
            let name = scope_name(view.db.records.words, h);
            return Some(LastStep {
                link: i + 3,
                name: name.0,
                at: h,
            });
        }
    }
    None
}
