//! Kind 6: a child of a module.
ghost use Rattle.std.specs.Prelude.{◌≡◌, List, ◌+◌, ◌<◌, eqb, ◌&&◌};
ghost use Rattle.snapshot.specs.Sizes.{child_size};
ghost use Rattle.snapshot.specs.Layouts.{module_map, module_parent};
ghost use Rattle.snapshot.specs.Records.{Map, child_at};
ghost use Rattle.snapshot.specs.Layouts.{snap_with};
ghost use Rattle.check_rules.specs.Tests.{child_defined};
ghost use Rattle.check_rules.specs.Steps.{child_step};
ghost use Rattle.check_records.specs.record_rules.Stands.{Ready, Stands, Answered, counts_in};

use crate::chains::chain::Chains;
use crate::record_rules::judge::judge;
use snapshot::layout::Layout;
use snapshot::reading::word;
use snapshot::record::{child_child, child_owner};
use snapshot::refusal::Refusal;
use snapshot::table::{module_map, module_parent};

// The shape of a dependency's test, which holds other fields against the crates: one of both would take two readers and a count.
fn defined(words: &[u32], l: Layout, at: usize) -> bool
    ensures { result ≡ child_defined (counts_in l) (child_at words.now at) }
{
    let owner = child_owner(words, at);
    let child = child_child(words, at);
    (owner.0 < l.modules) & (child.0 < l.modules)
}

// Of its owner's map, and under its owner.
fn placed(words: &[u32], area: &[u32], at: usize) -> bool
    ensures { result ≡ eqb (module_map area.now (child_at words.now at).child)
        (module_map area.now (child_at words.now at).owner) && eqb
        (module_parent area.now (child_at words.now at).child) ((child_at words.now at).owner + 1) }
{
    let owner = child_owner(words, at);
    let child = child_child(words, at);
    (module_map(area, child) == module_map(area, owner))
        & (module_parent(area, child) == owner.0 + 1)
}

/// A child.
pub fn step(words: &[u32], area: &mut [u32], l: Layout, at: usize) -> Result<Layout, Refusal>
    requires { Ready words.now area.old l at (at + child_size) }
    ensures { (ms : List Map) → Stands words.now area.old 6 at l ms
        → Answered words.now area.new 6 (at + child_size)
        (child_step (snap_with words.now area.old l ms) (child_at words.now at)) result }
{
    let child = child_child(words, at);
    let mark = Chains::CHILD_MARKS + child.0;
    let old = word(area, mark) != 0;
    judge(
        true,
        defined(words, l, at),
        old,
        placed(words, area, at),
        true,
    )?;
    area[mark] = 1;
    let mut m = l;
    m.children = l.children + 1;
    Ok(m)
}
