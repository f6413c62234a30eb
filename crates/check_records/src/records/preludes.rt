//! Kind 7: the prelude of a map.
ghost use Rattle.std.specs.Prelude.{◌≡◌, List, ◌+◌};
ghost use Rattle.snapshot.specs.Sizes.{prelude_size};
ghost use Rattle.snapshot.specs.Records.{Map, prelude_at};
ghost use Rattle.snapshot.specs.Layouts.{snap_with};
ghost use Rattle.check_rules.specs.Tests.{prelude_defined};
ghost use Rattle.check_rules.specs.Steps.{prelude_step};
ghost use Rattle.check_records.specs.record_rules.Stands.{Ready, Stands, Answered, counts_in};

use crate::record_rules::judge::judge;
use crate::records::repeats::repeated;
use snapshot::kind::Size;
use snapshot::layout::Layout;
use snapshot::record::{prelude_map, prelude_target};
use snapshot::refusal::Refusal;

fn defined(words: &[u32], l: Layout, at: usize) -> bool
    ensures { result ≡ prelude_defined (counts_in l) (prelude_at words.now at) }
{
    let target = prelude_target(words, at);
    (prelude_map(words, at) < l.maps) & (target.0 < l.modules)
}

/// A prelude.
pub fn step(words: &[u32], area: &[u32], l: Layout, at: usize) -> Result<Layout, Refusal>
    requires { Ready words.now area.now l at (at + prelude_size) }
    ensures { (ms : List Map) → Stands words.now area.now 7 at l ms
        → Answered words.now area.now 7 (at + prelude_size)
        (prelude_step (snap_with words.now area.now l ms) (prelude_at words.now at)) result }
{
    let old = repeated(
        words,
        true,
        0,
        at,
        l.prelude_base(),
        Size::PRELUDE,
        l.preludes,
    );
    judge(true, defined(words, l, at), old, true, true)?;
    let mut m = l;
    m.preludes = l.preludes + 1;
    Ok(m)
}
