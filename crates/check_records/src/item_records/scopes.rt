//! Kind 9: an entry of a module's scope.
ghost use Rattle.std.specs.Prelude.{◌≡◌, List, ◌+◌};
ghost use Rattle.snapshot.specs.Sizes.{scope_size};
ghost use Rattle.snapshot.specs.Records.{Map, scope_at};
ghost use Rattle.snapshot.specs.Layouts.{snap_with};
ghost use Rattle.check_rules.specs.Tests.{scope_range, scope_defined};
ghost use Rattle.check_rules.specs.Steps.{scope_step};
ghost use Rattle.check_records.specs.record_rules.Stands.{Ready, Stands, Answered, counts_in};

use crate::chains::chain::{Chains, link};
use crate::chains::keys::record_key;
use crate::item_records::definitions::ns_placed;
use crate::record_rules::judge::judge;
use crate::records::repeats::repeated_with;
use snapshot::ids::Namespace;
use snapshot::kind::Size;
use snapshot::layout::Layout;
use snapshot::record::{
    scope_bits, scope_declared, scope_definition, scope_name, scope_ns, scope_number, scope_owner,
    scope_visibility,
};
use snapshot::refusal::Refusal;

// By the readers of a record; `edit_rules::scope_edits::entries` tests the same of words that are no record yet, whose first word has no kind.
fn in_range(words: &[u32], at: usize) -> bool
    ensures { result ≡ scope_range (scope_at words.now at) }
{
    let visibility = scope_visibility(words, at);
    let number = scope_number(words, at);
    (scope_ns(words, at) <= Namespace::LIMIT)
        & (visibility <= 3)
        & ((visibility != 0) | (number == 0))
        & (scope_declared(words, at) <= 3)
        & (scope_bits(words, at) <= 3)
}

// As in `in_range`: `edit_rules::scope_edits::entries` tests the same of words that are no record.
fn defined(words: &[u32], l: Layout, at: usize) -> bool
    ensures { result ≡ scope_defined (counts_in l) (scope_at words.now at) }
{
    let owner = scope_owner(words, at);
    let name = scope_name(words, at);
    let definition = scope_definition(words, at);
    let visibility = scope_visibility(words, at);
    let number = scope_number(words, at);
    let named = (owner.0 < l.modules) & (name.0 < l.names) & (definition.0 < l.definitions);
    named & ((visibility != 1) | (number < l.crates)) & ((visibility <= 1) | (number < l.modules))
}

/// An entry.
// As `externs::step`, of another record: why there are two is said there.
pub fn step(words: &[u32], area: &mut [u32], l: Layout, at: usize) -> Result<Layout, Refusal>
    requires { Ready words.now area.old l at (at + scope_size) }
    ensures { (ms : List Map) → Stands words.now area.old 9 at l ms
        → Answered words.now area.new 9 (at + scope_size)
        (scope_step (snap_with words.now area.old l ms) (scope_at words.now at)) result }
{
    let key = record_key(words, at, 2);
    let count = l.scopes;
    let old = repeated_with(
        words,
        area,
        2,
        at,
        l.scope_base(),
        Size::SCOPE,
        count,
        Chains::SCOPE_HEADS,
        Chains::SCOPE_LINKS,
        key,
    );
    let placed = ns_placed(words, l, scope_ns(words, at), scope_definition(words, at));
    judge(
        in_range(words, at),
        defined(words, l, at),
        old,
        placed,
        true,
    )?;
    link(area, Chains::SCOPE_HEADS, Chains::SCOPE_LINKS, key, count);
    let mut m = l;
    m.scopes = count + 1;
    Ok(m)
}
