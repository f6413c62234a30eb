//! The tally of reports.
ghost use Rattle.std.specs.Prelude.{◌≡◌, ◌^◌, ◌≤◌};
ghost use Rattle.std.specs.Prelude.{Ok};
ghost use Rattle.reach.specs.parts.Reach.{column as column_of, names_found, tallied_reach, told};
ghost use Rattle.reach.specs.parts.Within.{Within};

use crate::parts::Reach;
use find_path_spec::{Outcome, Report};

// Where a report counts.
fn column(r: Report) -> usize
    requires { r.empty ≤ 1 }
    ensures { result ≡ column_of r }
{
    if r.outcome == Outcome::Found as usize {
        return r.count;
    }
    if r.outcome == Outcome::None as usize {
        return 18 + r.empty;
    }
    17
}

// The names of a path that is found.
fn names_found(r: Report) -> usize
    ensures { result ≡ names_found r }
{
    if r.outcome == Outcome::Found as usize {
        return r.count;
    }
    0
}

/// One more in the column of the report, and its names in the last.
pub fn tally(reach: Reach, r: Report) -> Reach
    requires { (r.count ≤ 16) × (r.empty ≤ 1) × Within (2 ^ 32) reach.counts }
    ensures { told (Ok result) ≡ tallied_reach (told (Ok reach)) r }
{
    let at = column(r);
    let names = names_found(r);
    let mut counts = reach.counts;
    counts[at] += 1;
    counts[20] += names;
    Reach { counts }
}
