//! Kind 2: a crate.
ghost use Rattle.std.specs.Prelude.{◌≡◌, List, ◌+◌};
ghost use Rattle.snapshot.specs.Sizes.{crate_size};
ghost use Rattle.snapshot.specs.Records.{Map, crate_at};
ghost use Rattle.snapshot.specs.Layouts.{snap_with};
ghost use Rattle.check_rules.specs.Tests.{crate_range, is_edition};
ghost use Rattle.check_rules.specs.Steps.{crate_step};
ghost use Rattle.check_records.specs.record_rules.Stands.{Ready, Stands, Answered};

use crate::record_rules::crates::judge_crate;
use snapshot::ids::{Crate, CrateOrigin};
use snapshot::layout::Layout;
use snapshot::record::{crate_edition, crate_no_std, crate_origin};
use snapshot::refusal::Refusal;
use snapshot::table::Tables;

fn in_range(words: &[u32], at: usize) -> bool
    ensures { result ≡ crate_range (crate_at words.now at) }
{
    (crate_origin(words, at) <= CrateOrigin::LIMIT) & (crate_no_std(words, at) <= 1)
}

fn edition_known(words: &[u32], at: usize) -> bool
    ensures { result ≡ is_edition (crate_at words.now at).edition }
{
    let e = crate_edition(words, at);
    (e == 2015) | (e == 2018) | (e == 2021) | (e == 2024)
}

/// A crate; it has no own map yet.
pub fn step(words: &[u32], area: &mut [u32], l: Layout, at: usize) -> Result<Layout, Refusal>
    requires { Ready words.now area.old l at (at + crate_size) }
    ensures { (ms : List Map) → Stands words.now area.old 2 at l ms
        → Answered words.now area.new 2 (at + crate_size)
        (crate_step (snap_with words.now area.old l ms) (crate_at words.now at)) result }
{
    let crates = l.crates;
    judge_crate(
        in_range(words, at),
        edition_known(words, at),
        crates < Crate::LIMIT,
    )?;
    area[Tables::CRATES + crates] = 0;
    let mut m = l;
    m.crates = crates + 1;
    Ok(m)
}
