//! Kind 8: a definition.
ghost use Rattle.std.specs.Prelude.{◌≡◌, List, ◌+◌, ◌*◌, ◌^◌, ◌<◌, ◌≤◌, length, eqb, leb, true, ◌&&◌, ◌||◌, not};
ghost use Rattle.snapshot.specs.Lists.{rows, any};
ghost use Rattle.snapshot.specs.DefinitionKinds.{definition_kind_of};
ghost use Rattle.snapshot.specs.Limits.{module_limit};
ghost use Rattle.snapshot.specs.Sizes.{definition_size};
ghost use Rattle.snapshot.specs.Records.{name_at};
ghost use Rattle.snapshot.specs.Layouts.{word_count, definition_base, name_head};
ghost use Rattle.snapshot.specs.Records.{Map, definition_at};
ghost use Rattle.snapshot.specs.Layouts.{snap_with};
ghost use Rattle.check_records.specs.chains.Chains.{slot_of, Marked, module_marks};
ghost use Rattle.check_rules.specs.Tests.{definition_defined, is_builtin};
ghost use Rattle.check_rules.specs.Steps.{definition_step};
ghost use Rattle.check_records.specs.record_rules.Stands.{Ready, Stands, Answered, counts_in, same_by};

use crate::chains::chain::Chains;
use crate::chains::keys::module_slot;
use crate::record_rules::judge::judge;
use crate::record_rules::names::is_builtin;
use crate::records::repeats::repeated;
use snapshot::ids::{DefinitionId, DefinitionKind, Name, Namespace};
use snapshot::kind::Size;
use snapshot::layout::Layout;
use snapshot::reading::word;
use snapshot::record::{
    definition_first, definition_kind, definition_second, known_definition_kind,
};
use snapshot::refusal::Refusal;
use snapshot::table::name_head;

/// The number of a definition's kind, where the definition is there; for another number any.
pub fn kind_at(words: &[u32], l: Layout, d: DefinitionId) -> usize
    requires { (word_count l < 2 ^ 32) × (d.0 < 2 ^ 32) }
    ensures { result ≡ (definition_at words.now (definition_base l + definition_size * d.0)).kind }
{
    definition_kind(words, l.definition_base() + Size::DEFINITION * d.0)
}

/// The kind of a definition that is there; for another number any kind, or none.
pub fn known_kind_at(words: &[u32], l: Layout, d: DefinitionId) -> Option<DefinitionKind>
    requires { (word_count l < 2 ^ 32) × (d.0 < 2 ^ 32) }
    ensures { result ≡ definition_kind_of (definition_at words.now (definition_base l + definition_size * d.0)).kind }
{
    DefinitionKind::of(kind_at(words, l, d))
}

/// Whether a definition may stand in a namespace.
pub fn ns_placed(words: &[u32], l: Layout, ns: usize, d: DefinitionId) -> bool
    requires { (word_count l < 2 ^ 32) × (d.0 < 2 ^ 32) }
    ensures { result ≡ (not (eqb ns 2) || eqb (definition_at words.now (definition_base l + definition_size * d.0)).kind 5) }
{
    (ns != Namespace::MACROS) | (known_kind_at(words, l, d) == Some(DefinitionKind::Macro))
}

// A builtin's name, where it is defined, is one of the builtins.
fn builtin_named(words: &[u32], area: &[u32], l: Layout, at: usize) -> bool
    ensures { result ≡ (not (eqb (definition_at words.now at).kind 3) || leb l.names
        (definition_at words.now at).first || is_builtin
        (name_at words.now (name_head area.now (definition_at words.now at).first))) }
{
    if known_definition_kind(words, at) != Some(DefinitionKind::Builtin) {
        return true;
    }
    let first = definition_first(words, at);
    if l.names <= first {
        return true;
    }
    is_builtin(words, name_head(area, Name(first)))
}

fn in_range(words: &[u32], area: &[u32], l: Layout, at: usize) -> bool
    ensures { result ≡ (leb 1 (definition_at words.now at).kind && leb (definition_at words.now at).kind 5 &&
        (eqb (definition_at words.now at).kind 2 || eqb (definition_at words.now at).second 0) &&
        (not (eqb (definition_at words.now at).kind 3) || leb l.names (definition_at words.now at).first
        || is_builtin (name_at words.now (name_head area.now (definition_at words.now at).first)))) }
{
    let kind = known_definition_kind(words, at);
    let second = definition_second(words, at);
    let builtin = builtin_named(words, area, l, at);
    kind.is_some() & ((kind == Some(DefinitionKind::Variant)) | (second == 0)) & builtin
}

fn defined(words: &[u32], l: Layout, at: usize) -> bool
    ensures { result ≡ definition_defined (counts_in l) (definition_at words.now at) }
{
    let kind = known_definition_kind(words, at);
    let first = definition_first(words, at);
    let second = definition_second(words, at);
    match kind {
        Some(DefinitionKind::Variant) => (first < l.definitions) & (second < l.names),
        Some(DefinitionKind::Builtin) => first < l.names,
        _ => first < l.modules,
    }
}

fn placed(words: &[u32], l: Layout, at: usize) -> bool
    requires { word_count l < 2 ^ 32 }
    ensures { result ≡ (not (eqb (definition_at words.now at).kind 2) || eqb
        (definition_at words.now (definition_base l + definition_size * (definition_at words.now at).first)).kind 4) }
{
    let parent = DefinitionId(definition_first(words, at));
    (known_definition_kind(words, at) != Some(DefinitionKind::Variant))
        | (known_kind_at(words, l, parent) == Some(DefinitionKind::Other))
}

// A module or a builtin that has a definition already; the other kinds may stand again.
fn again(words: &[u32], area: &[u32], l: Layout, at: usize) -> bool
    requires marked { Marked area.now module_marks (λ j. slot_of words.now (definition_base l + definition_size * j)) l.definitions }
    requires l_bound { (word_count l ≤ at) × (at + definition_size ≤ length words.now) × (length words.now < 2 ^ 32) }
    ensures { ((definition_at words.now at).kind ≡ 1 → (definition_at words.now at).first < module_limit)
        → result ≡ ((eqb (definition_at words.now at).kind 1 || eqb (definition_at words.now at).kind 3) && any
        (same_by words.now true 1 at) (rows (λ k. definition_base l + definition_size * k) 0 l.definitions)) }
{
    match known_definition_kind(words, at) {
        Some(DefinitionKind::Module) => {
            let mark = Chains::MODULE_MARKS + definition_first(words, at);
            word(area, mark) != 0
        }
        Some(DefinitionKind::Builtin) => repeated(
            words,
            true,
            1,
            at,
            l.definition_base(),
            Size::DEFINITION,
            l.definitions,
        ),
        _ => false,
    }
}

/// A definition.
pub fn step(words: &[u32], area: &mut [u32], l: Layout, at: usize) -> Result<Layout, Refusal>
    requires { Ready words.now area.old l at (at + definition_size) }
    ensures { (ms : List Map) → Stands words.now area.old 8 at l ms
        → Answered words.now area.new 8 (at + definition_size)
        (definition_step (snap_with words.now area.old l ms) (definition_at words.now at)) result }
{
    let room = l.definitions < DefinitionId::LIMIT;
    judge(
        in_range(words, area, l, at),
        defined(words, l, at),
        again(words, area, l, at),
        placed(words, l, at),
        room,
    )?;
    let slot = module_slot(words, at);
    area[Chains::MODULE_MARKS + slot] = 1;
    let mut m = l;
    m.definitions = l.definitions + 1;
    Ok(m)
}
