//! A shortest path to an item: of those that begin with a keyword or `::`, and of those that begin with a name.
ghost use Rattle.std.specs.Prelude.{◌≡◌, ◌≤◌, ◌<◌, length, option_map};
ghost use Rattle.snapshot.specs.Limits.{module_limit};
ghost use Rattle.snapshot.specs.Laid.{snap_by};
ghost use Rattle.accept.specs.Post.{Reads};
ghost use Rattle.accept.specs.Opened.{snap_in};
ghost use Rattle.nameable.specs.Breadth.{shortest_of, shortest as shortest_path};
ghost use Rattle.any_path.specs.Rows.{row_at, Stays};
ghost use Rattle.told_paths.specs.arrivals.Steps.{Ready};
ghost use Rattle.told_paths.specs.Tells.{tell};

use crate::ToldPath;
use crate::paths::shorter;
use crate::shortest_paths::by_enum::enum_told;
use crate::shortest_paths::told::arrival_told;
use accept::opened::Snapshot;
use any_path::run::{run_keywords, run_plain};
use hir_def::{Item, View};
use snapshot::ids::ModuleId;
use snapshot::records::Records;

// A shortest of one kind, over the n rows of their run.
// `named` says which of two runs stands in the area, as `Ready` and the functions below have it.
fn shortest_of(view: &View, n: usize, item: Item, named: bool) -> Option<ToldPath>
    requires { Ready named view.now n }
    ensures { result ≡ option_map tell (shortest_of named (snap_in view.now.db) view.now.from.0 item) }
{
    let near = arrival_told(view, n, item, named);
    let by = enum_told(view, n, item, named);
    shorter(near, by)
}

/// A shortest path to the item, one that does not begin with a name where there is one; the tables of the check stay.
pub fn shortest(records: &Records, area: &mut [u32], from: ModuleId, item: Item) -> Option<ToldPath>
    requires { Reads records.now.words.now area.old records.now.layout × (from.0 < records.now.layout.modules)
        × (row_at module_limit ≤ length area.old) }
    ensures value { result ≡ option_map tell (shortest_path (snap_by records.now area.old) from.0 item) }
    ensures stays { Stays area.old area.new }
{
    let n = run_keywords(records, area, from);
    let db = Snapshot {
        records: *records,
        area,
    };
    let view = View { db, from };
    let a = shortest_of(&view, n, item, false);
    let m = run_plain(records, area, from);
    let db = Snapshot {
        records: *records,
        area,
    };
    let view = View { db, from };
    let b = shortest_of(&view, m, item, true);
    shorter(a, b)
}
