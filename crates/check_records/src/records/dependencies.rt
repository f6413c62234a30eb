//! Kind 3: a dependency.
ghost use Rattle.std.specs.Prelude.{◌≡◌, List, ◌+◌};
ghost use Rattle.snapshot.specs.Sizes.{dependency_size};
ghost use Rattle.snapshot.specs.Records.{Map, dependency_at};
ghost use Rattle.snapshot.specs.Layouts.{snap_with};
ghost use Rattle.check_rules.specs.Tests.{dependency_range, dependency_defined};
ghost use Rattle.check_rules.specs.Steps.{dependency_step};
ghost use Rattle.check_records.specs.record_rules.Stands.{Ready, Stands, Answered, counts_in};

use crate::record_rules::judge::judge;
use snapshot::layout::Layout;
use snapshot::record::{dependency_crate, dependency_owner, dependency_sysroot};
use snapshot::refusal::Refusal;

fn in_range(words: &[u32], at: usize) -> bool
    ensures { result ≡ dependency_range (dependency_at words.now at) }
{
    dependency_sysroot(words, at) <= 1
}

fn defined(words: &[u32], l: Layout, at: usize) -> bool
    ensures { result ≡ dependency_defined (counts_in l) (dependency_at words.now at) }
{
    let owner = dependency_owner(words, at);
    let krate = dependency_crate(words, at);
    (owner.0 < l.crates) & (krate.0 < l.crates)
}

/// A dependency.
// As the step of a member but for its tests and the count that it raises: shared, they would be closures, of as many lines.
pub fn step(words: &[u32], area: &[u32], l: Layout, at: usize) -> Result<Layout, Refusal>
    requires { Ready words.now area.now l at (at + dependency_size) }
    ensures { (ms : List Map) → Stands words.now area.now 3 at l ms
        → Answered words.now area.now 3 (at + dependency_size)
        (dependency_step (snap_with words.now area.now l ms) (dependency_at words.now at)) result }
{
    judge(
        in_range(words, at),
        defined(words, l, at),
        false,
        true,
        true,
    )?;
    let mut m = l;
    m.dependencies = l.dependencies + 1;
    Ok(m)
}
