//! The modules that paths without names mean.
ghost use Rattle.std.specs.Prelude.{map, false, ◌≤◌, ◌<◌, length};
ghost use Rattle.snapshot.specs.Lists.{rows};
ghost use Rattle.snapshot.specs.Limits.{module_limit};
ghost use Rattle.snapshot.specs.Laid.{snap_by};
ghost use Rattle.accept.specs.Post.{Reads};
ghost use Rattle.nameable.specs.Paths.{keyword, supers};
ghost use Rattle.nameable.specs.Breadth.{added};
ghost use Rattle.nameable.specs.Queue.{begun};
ghost use Rattle.any_path.specs.Rows.{row_at, run_at, Run, Grown};

use crate::rows::{Row, offer};
use crate::seen_entries::privacy::module_around;
use accept::opened::Snapshot;
use module_tree::modules::{crate_root, parent};
use snapshot::ids::ModuleId;
use snapshot::records::Records;

// The modules that `super`, one time and more, means.
// `loop`: it climbs from parent to parent, and ends where there is none.
fn offer_supers(records: &Records, area: &mut [u32], from: ModuleId, n: usize) -> usize
    requires { Reads records.now.words.now area.old records.now.layout × (from.0 < records.now.layout.modules)
        × Run records.now.layout.modules area.old n }
    ensures { Grown records.now.layout.modules area.old n area.new result
        (added (snap_by records.now area.old) from.0 (run_at area.old n)
        (map keyword (rows supers 1 (length (snap_by records.now area.old).modules)))) }
{
    let db = Snapshot {
        records: *records,
        area,
    };
    let mut m = module_around(&db, from);
    let mut count = n;
    let mut k = 0;
    loop {
        let db = Snapshot {
            records: *records,
            area,
        };
        let Some(p) = parent(&db, m) else {
            return count;
        };
        m = module_around(&db, p);
        k += 1;
        let row = Row {
            target: m.0,
            link: 0,
            name: k + 1,
            place: 0,
        };
        count = offer(area, records.layout.modules, count, row);
    }
}

// The modules that `self`, `crate` and `super` mean.
pub(crate) fn begin(records: &Records, area: &mut [u32], from: ModuleId) -> usize
    requires { Reads records.now.words.now area.old records.now.layout × (from.0 < records.now.layout.modules)
        × (row_at module_limit ≤ length area.old) }
    ensures { Grown records.now.layout.modules area.old 0 area.new result
        (begun false (snap_by records.now area.old) from.0) }
{
    let db = Snapshot {
        records: *records,
        area,
    };
    let around = module_around(&db, from);
    let root = crate_root(&db, from);
    let own = Row {
        target: around.0,
        link: 0,
        name: 1,
        place: 0,
    };
    let one = offer(area, records.layout.modules, 0, own);
    let top = Row {
        target: root.0,
        link: 0,
        name: 0,
        place: 0,
    };
    let two = offer(area, records.layout.modules, one, top);
    offer_supers(records, area, from, two)
}
