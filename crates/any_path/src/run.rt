//! Rows taken up one after the other.
ghost use Rattle.std.specs.Prelude.{true, false, ◌≤◌, ◌<◌, length};
ghost use Rattle.snapshot.specs.Limits.{module_limit};
ghost use Rattle.snapshot.specs.Laid.{snap_by};
ghost use Rattle.accept.specs.Post.{Reads};
ghost use Rattle.accept.specs.Valid.{Each};
ghost use Rattle.hir_def.specs.Items.{types};
ghost use Rattle.nameable.specs.Breadth.{added, onward};
ghost use Rattle.nameable.specs.Queue.{queue, run};
ghost use Rattle.any_path.specs.Rows.{row_at, run_at, Run, Grown, Meant};

use crate::begin::begin;
use crate::expand::expand;
use crate::firsts::offer_plains;
use crate::singles::offer_absolutes;
use snapshot::ids::ModuleId;
use snapshot::records::Records;

// The n rows are taken up, none of those that come in.
pub(crate) fn expand_all(records: &Records, area: &mut [u32], from: ModuleId, n: usize) -> usize
    requires { Reads records.now.words.now area.old records.now.layout × (from.0 < records.now.layout.modules)
        × Run records.now.layout.modules area.old n
        × Each (Meant (snap_by records.now area.old) from.0) (run_at area.old n) }
    ensures { Grown records.now.layout.modules area.old n area.new result
        (added (snap_by records.now area.old) from.0 (run_at area.old n)
        (onward (snap_by records.now area.old) from.0 types (run_at area.old n))) }
{
    let mut count = n;
    for i in 0..n {
        count = expand(records, area, from, i, count);
    }
    count
}

// The rows from a number on are taken up, those that come in too.
pub(crate) fn take_up(
    records: &Records,
    area: &mut [u32],
    from: ModuleId,
    start: usize,
    n: usize,
) -> usize
    requires { Reads records.now.words.now area.old records.now.layout × (from.0 < records.now.layout.modules)
        × Run records.now.layout.modules area.old n
        × Each (Meant (snap_by records.now area.old) from.0) (run_at area.old n) }
    ensures { Grown records.now.layout.modules area.old n area.new result
        (queue (snap_by records.now area.old) from.0 (length (snap_by records.now area.old).modules)
        (run_at area.old n) start) }
{
    let mut count = n;
    let mut i = start;
    // No range: `count` grows in the loop.
    while i < count {
        count = expand(records, area, from, i, count);
        i += 1;
    }
    count
}

/// The modules that paths mean which begin with a keyword or `::`.
// That the area has room for all rows is a clause: the two runs and `shortest` take a slice of any length, and `Area` would ask for its own.
pub fn run_keywords(records: &Records, area: &mut [u32], from: ModuleId) -> usize
    requires { Reads records.now.words.now area.old records.now.layout × (from.0 < records.now.layout.modules)
        × (row_at module_limit ≤ length area.old) }
    ensures { Grown records.now.layout.modules area.old 0 area.new result
        (run false (snap_by records.now area.old) from.0) }
{
    let start = begin(records, area, from);
    let near = expand_all(records, area, from, start);
    let all = offer_absolutes(records, area, from, near);
    take_up(records, area, from, start, all)
}

/// The modules that paths mean which begin with a name.
pub fn run_plain(records: &Records, area: &mut [u32], from: ModuleId) -> usize
    requires { Reads records.now.words.now area.old records.now.layout × (from.0 < records.now.layout.modules)
        × (row_at module_limit ≤ length area.old) }
    ensures { Grown records.now.layout.modules area.old 0 area.new result
        (run true (snap_by records.now area.old) from.0) }
{
    let near = offer_plains(records, area, from, 0);
    take_up(records, area, from, 0, near)
}
