//! Kind 13: a member of a definition.
ghost use Rattle.std.specs.Prelude.{◌≡◌, List, ◌&&◌, ◌+◌, ◌*◌, ◌^◌, ◌<◌, eqb};
ghost use Rattle.snapshot.specs.Sizes.{definition_size, member_size};
ghost use Rattle.snapshot.specs.Records.{Map, definition_at, member_at};
ghost use Rattle.snapshot.specs.Layouts.{word_count, definition_base, snap_with};
ghost use Rattle.check_rules.specs.Tests.{member_range, member_defined, is_member};
ghost use Rattle.check_rules.specs.Steps.{member_step};
ghost use Rattle.check_records.specs.record_rules.Stands.{Ready, Stands, Answered, counts_in};

use crate::item_records::definitions::known_kind_at;
use crate::record_rules::judge::judge;
use snapshot::ids::{DefinitionKind, MemberKind};
use snapshot::kind::Size;
use snapshot::layout::Layout;
use snapshot::record::{
    definition_first, definition_second, known_definition_kind, known_member_kind, member_bits,
    member_definition, member_name, member_parent,
};
use snapshot::refusal::Refusal;

fn in_range(words: &[u32], at: usize) -> bool
    ensures { result ≡ member_range (member_at words.now at) }
{
    known_member_kind(words, at).is_some() & (member_bits(words, at) <= 3)
}

// A parent and a definition against the definitions: the shape of an extern's test, with no field and no count alike but the names.
fn defined(words: &[u32], l: Layout, at: usize) -> bool
    ensures { result ≡ member_defined (counts_in l) (member_at words.now at) }
{
    let parent = member_parent(words, at);
    let name = member_name(words, at);
    let definition = member_definition(words, at);
    (parent.0 < l.definitions) & (name.0 < l.names) & (definition.0 < l.definitions)
}

// Whether the definition with its head at a place may be the member: the parent's variant by its name, or a definition of kind 4.
fn fits(words: &[u32], at: usize, head: usize) -> bool
    ensures { result ≡ is_member (member_at words.now at).kind (member_at words.now at).parent
        (member_at words.now at).name (definition_at words.now head) }
{
    let kind = known_member_kind(words, at);
    let parent = member_parent(words, at);
    let name = member_name(words, at);
    let of = known_definition_kind(words, head);
    let owned = definition_first(words, head) == parent.0;
    let named = definition_second(words, head) == name.0;
    if kind == Some(MemberKind::Variant) {
        return (of == Some(DefinitionKind::Variant)) & owned & named;
    }
    of == Some(DefinitionKind::Other)
}

fn placed(words: &[u32], l: Layout, at: usize) -> bool
    requires { word_count l < 2 ^ 32 }
    ensures { result ≡ (eqb (definition_at words.now (definition_base l + definition_size * (member_at words.now
        at).parent)).kind 4 && is_member (member_at words.now at).kind (member_at words.now at).parent
        (member_at words.now at).name (definition_at words.now (definition_base l + definition_size * (member_at
        words.now at).definition))) }
{
    let parent = known_kind_at(words, l, member_parent(words, at));
    let definition = member_definition(words, at);
    let head = l.definition_base() + Size::DEFINITION * definition.0;
    (parent == Some(DefinitionKind::Other)) & fits(words, at, head)
}

/// A member.
pub fn step(words: &[u32], area: &[u32], l: Layout, at: usize) -> Result<Layout, Refusal>
    requires { Ready words.now area.now l at (at + member_size) }
    ensures { (ms : List Map) → Stands words.now area.now 13 at l ms
        → Answered words.now area.now 13 (at + member_size)
        (member_step (snap_with words.now area.now l ms) (member_at words.now at)) result }
{
    judge(
        in_range(words, at),
        defined(words, l, at),
        false,
        placed(words, l, at),
        true,
    )?;
    let mut m = l;
    m.members = l.members + 1;
    Ok(m)
}
