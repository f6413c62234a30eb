//! Kind 11: a name of a crate's extern prelude.
ghost use Rattle.std.specs.Prelude.{◌≡◌, List, ◌+◌};
ghost use Rattle.snapshot.specs.Sizes.{extern_size};
ghost use Rattle.snapshot.specs.Records.{Map, extern_at};
ghost use Rattle.snapshot.specs.Layouts.{snap_with};
ghost use Rattle.check_rules.specs.Tests.{extern_defined};
ghost use Rattle.check_rules.specs.Steps.{extern_step};
ghost use Rattle.check_records.specs.record_rules.Stands.{Ready, Stands, Answered, counts_in};

use crate::chains::chain::{Chains, link};
use crate::chains::keys::record_key;
use crate::record_rules::judge::judge;
use crate::records::repeats::repeated_with;
use snapshot::kind::Size;
use snapshot::layout::Layout;
use snapshot::record::{extern_name, extern_owner, extern_target};
use snapshot::refusal::Refusal;

// Owner below the crates, target below the modules; a member's three fields are held against other counts.
fn defined(words: &[u32], l: Layout, at: usize) -> bool
    ensures { result ≡ extern_defined (counts_in l) (extern_at words.now at) }
{
    let owner = extern_owner(words, at);
    let name = extern_name(words, at);
    let target = extern_target(words, at);
    (owner.0 < l.crates) & (name.0 < l.names) & (target.0 < l.modules)
}

/// An extern.
// As `scopes::step`, of another record. What the two share is `repeated_with`, `judge` and `link`: each argument of these differs, so one step
// for both would take them all.
pub fn step(words: &[u32], area: &mut [u32], l: Layout, at: usize) -> Result<Layout, Refusal>
    requires { Ready words.now area.old l at (at + extern_size) }
    ensures { (ms : List Map) → Stands words.now area.old 11 at l ms
        → Answered words.now area.new 11 (at + extern_size)
        (extern_step (snap_with words.now area.old l ms) (extern_at words.now at)) result }
{
    let key = record_key(words, at, 1);
    let count = l.externs;
    let old = repeated_with(
        words,
        area,
        1,
        at,
        l.extern_base(),
        Size::EXTERN,
        count,
        Chains::EXTERN_HEADS,
        Chains::EXTERN_LINKS,
        key,
    );
    judge(true, defined(words, l, at), old, true, true)?;
    link(area, Chains::EXTERN_HEADS, Chains::EXTERN_LINKS, key, count);
    let mut m = l;
    m.externs = count + 1;
    Ok(m)
}
