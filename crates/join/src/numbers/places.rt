//! Where a name or a builtin of the second part stands in the first, whose tables are gone: by a walk over its words.
ghost use Rattle.std.specs.Prelude.{◌≡◌, ◌^◌, ◌<◌, ◌≤◌, length};
ghost use Rattle.snapshot.specs.Limits.{name_limit};
ghost use Rattle.snapshot.specs.Sizes.{definition_size};
ghost use Rattle.snapshot.specs.Records.{name_at, definition_at};
ghost use Rattle.snapshot.specs.Layouts.{definition_base, name_head, records_of};
ghost use Rattle.check_rules.specs.Tests.{same_name};
ghost use Rattle.hir_def.specs.Finds.{place_of};
ghost use Rattle.join.specs.numbers.Parts.{names_from};
ghost use Rattle.join.specs.numbers.Numbered.{is_named};

use check_records::record_rules::names::known;
use hir_def::finds::next_where;
use hir_def::spans::definitions;
use snapshot::ids::{DefinitionKind, Name};
use snapshot::kind::{Size, text_words};
use snapshot::reading::payload;
use snapshot::record::{definition_first, known_definition_kind};
use snapshot::records::Records;

/// The number that a name of the second part has among the first's, their count for none.
// `first` is a snapshot's words, of which the names are the front: their number is no length.
// The count for none, as the definition `place_of` has it: `put_number` compares it with the count, so an `Option` would be made that number again.
pub fn place_of_name(first: &[u32], count: usize, second: &[u32], area: &[u32], n: Name) -> usize
    requires { (count ≤ name_limit) × (n.0 < length area.now) }
    ensures { result ≡ place_of (same_name (name_at second.now (name_head area.now n.0))) 0
        (names_from first.now 0 count) }
{
    let i = n.0;
    let mut at = 0;
    for k in 0..count {
        if known(first, at, second, &area[i..], 1) {
            return k;
        }
        at = at + 1 + text_words(payload(first, at));
    }
    count
}

// Whether the definition with its head at a place is the builtin with a name.
fn is_named(first: &[u32], at: usize, name: usize) -> bool
    ensures { result ≡ is_named name (definition_at first.now at) }
{
    let builtin = known_definition_kind(first, at) == Some(DefinitionKind::Builtin);
    builtin & (name == definition_first(first, at))
}

/// The number of the first part's builtin with a name, the count of its definitions for none.
// The count for none, as in `place_of_name`.
pub fn place_of_builtin(first: &Records, name: usize) -> usize
    ensures { result ≡ place_of (is_named name) 0 (records_of definition_at definition_size first.now.words.now
        (definition_base first.now.layout) first.now.layout.definitions) }
{
    let test = |at| is_named(first.words, at, name);
    match next_where(definitions(first), 0, test) {
        Some(found) => found.number,
        None => first.layout.definitions,
    }
}
