//! The modules reached, as rows of the work area past the tables of the check.
ghost use Rattle.std.specs.Prelude.{◌≡◌, ◌+◌, ◌^◌, ◌<◌, ◌≤◌};
ghost use Rattle.snapshot.specs.Limits.{module_limit};
ghost use Rattle.nameable.specs.Breadth.{is_met};
ghost use Rattle.any_path.specs.Rows.{run_at, Run, Offered};

use snapshot::reading::word;
use snapshot::table::Tables;

/// The module, the link (0 a keyword, 1 `::n`, 2 `n`, 3 and more a name after the path of a row), the name or keyword, and the place of the record.
// `link` is a number and no enum: it is a word of the row, `LastStep` passes it on as it stands, and the definition `path_from` takes it apart,
// as `row_place` here and `names_in` and `read` of `told_paths` do.
#[derive(Clone, Copy)]
pub struct Row {
    pub target: usize,
    pub link: usize,
    pub name: usize,
    pub place: usize,
}

impl Row {
    // Where the rows start, and the words of one.
    pub const BASE: usize = Tables::END;

    pub const SIZE: usize = 4;
}

// Whether a module has one of the first n rows.
// The area holds n rows of the 512 that have room: a shorter slice would be cut at each call, and `Run` speaks of the whole area.
pub(crate) fn is_met(area: &[u32], n: usize, m: usize) -> bool
    requires { n ≤ module_limit }
    ensures { result ≡ is_met (run_at area.now n) m }
{
    for i in 0..n {
        if word(area, Row::BASE + Row::SIZE * i) == m {
            return true;
        }
    }
    false
}

// A row goes to the end of n, unless its module has one.
#[tactic(auto, using(crate::proofs::Written::run_small))]
pub(crate) fn offer(area: &mut [u32], modules: usize, n: usize, row: Row) -> usize
    requires { Run modules area.old n × (modules ≤ module_limit) × (row.target < modules) × (row.link < n + 3)
        × (row.name < 2 ^ 32) × (row.place < 2 ^ 32) }
    ensures { Offered modules area.old n row.target row.link row.name area.new result }
{
    if is_met(area, n, row.target) {
        return n;
    }
    let at = Row::BASE + Row::SIZE * n;
    area[at] = row.target as u32;
    area[at + 1] = row.link as u32;
    area[at + 2] = row.name as u32;
    area[at + 3] = row.place as u32;
    n + 1
}
