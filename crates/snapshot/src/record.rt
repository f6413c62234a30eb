//! The fields of the records, by the place of the record's head.
ghost use Rattle.std.specs.Prelude.{◌≡◌};
ghost use Rattle.snapshot.specs.Records.{crate_at, dependency_at, map_at, module_at, child_at, prelude_at};
ghost use Rattle.snapshot.specs.Records.{definition_at, scope_at, import_at, extern_at, member_at};
ghost use Rattle.snapshot.specs.DefinitionKinds.{definition_kind_of};
ghost use Rattle.snapshot.specs.MemberKinds.{member_kind_of};
ghost use Rattle.snapshot.specs.Visibilities.{visibility_of};

use crate::ids::{Crate, DefinitionId, DefinitionKind, MemberKind, ModuleId, Name, Visibility};
use crate::reading::{field, payload};

/// The number of a `CrateOrigin`, or a larger one.
pub fn crate_origin(words: &[u32], at: usize) -> usize
    ensures { result ≡ (crate_at words.now at).origin }
{
    payload(words, at) % 8
}

/// Whether the crate supports no_std.
pub fn crate_no_std(words: &[u32], at: usize) -> usize
    ensures { result ≡ (crate_at words.now at).no_std }
{
    payload(words, at) / 8
}

pub fn crate_edition(words: &[u32], at: usize) -> usize
    ensures { result ≡ (crate_at words.now at).edition }
{
    field(words, at, 1)
}

pub fn dependency_owner(words: &[u32], at: usize) -> Crate
    ensures { result.0 ≡ (dependency_at words.now at).owner }
{
    Crate(payload(words, at))
}

pub fn dependency_crate(words: &[u32], at: usize) -> Crate
    ensures { result.0 ≡ (dependency_at words.now at).crate }
{
    Crate(field(words, at, 1))
}

pub fn dependency_sysroot(words: &[u32], at: usize) -> usize
    ensures { result ≡ (dependency_at words.now at).sysroot }
{
    field(words, at, 2)
}

pub fn map_crate(words: &[u32], at: usize) -> Crate
    ensures { result.0 ≡ (map_at words.now at).crate }
{
    Crate(payload(words, at))
}

pub fn map_block(words: &[u32], at: usize) -> usize
    ensures { result ≡ (map_at words.now at).block }
{
    field(words, at, 1)
}

pub fn map_no_std(words: &[u32], at: usize) -> usize
    ensures { result ≡ (map_at words.now at).no_std }
{
    field(words, at, 2)
}

pub fn module_map(words: &[u32], at: usize) -> usize
    ensures { result ≡ (module_at words.now at).map }
{
    payload(words, at)
}

pub fn module_parent(words: &[u32], at: usize) -> usize
    ensures { result ≡ (module_at words.now at).parent }
{
    field(words, at, 1)
}

pub fn child_owner(words: &[u32], at: usize) -> ModuleId
    ensures { result.0 ≡ (child_at words.now at).owner }
{
    ModuleId(payload(words, at))
}

pub fn child_child(words: &[u32], at: usize) -> ModuleId
    ensures { result.0 ≡ (child_at words.now at).child }
{
    ModuleId(field(words, at, 1))
}

pub fn prelude_map(words: &[u32], at: usize) -> usize
    ensures { result ≡ (prelude_at words.now at).map }
{
    payload(words, at)
}

pub fn prelude_target(words: &[u32], at: usize) -> ModuleId
    ensures { result.0 ≡ (prelude_at words.now at).target }
{
    ModuleId(field(words, at, 1))
}

/// The number of a `DefinitionKind`, or another.
pub fn definition_kind(words: &[u32], at: usize) -> usize
    ensures { result ≡ (definition_at words.now at).kind }
{
    payload(words, at)
}

/// None for a number that is no kind's.
pub fn known_definition_kind(words: &[u32], at: usize) -> Option<DefinitionKind>
    ensures { result ≡ definition_kind_of (definition_at words.now at).kind }
{
    DefinitionKind::of(definition_kind(words, at))
}

pub fn definition_first(words: &[u32], at: usize) -> usize
    ensures { result ≡ (definition_at words.now at).first }
{
    field(words, at, 1)
}

pub fn definition_second(words: &[u32], at: usize) -> usize
    ensures { result ≡ (definition_at words.now at).second }
{
    field(words, at, 2)
}

pub fn scope_owner(words: &[u32], at: usize) -> ModuleId
    ensures { result.0 ≡ (scope_at words.now at).owner }
{
    ModuleId(payload(words, at))
}

pub fn scope_ns(words: &[u32], at: usize) -> usize
    ensures { result ≡ (scope_at words.now at).ns }
{
    field(words, at, 1)
}

pub fn scope_name(words: &[u32], at: usize) -> Name
    ensures { result.0 ≡ (scope_at words.now at).name }
{
    Name(field(words, at, 2))
}

pub fn scope_definition(words: &[u32], at: usize) -> DefinitionId
    ensures { result.0 ≡ (scope_at words.now at).definition }
{
    DefinitionId(field(words, at, 3))
}

pub fn scope_visibility(words: &[u32], at: usize) -> usize
    ensures { result ≡ (scope_at words.now at).visibility }
{
    field(words, at, 4)
}

pub fn scope_number(words: &[u32], at: usize) -> usize
    ensures { result ≡ (scope_at words.now at).number }
{
    field(words, at, 5)
}

/// From where the entry is visible.
pub fn scope_seen(words: &[u32], at: usize) -> Visibility
    ensures { result ≡ visibility_of (scope_at words.now at).visibility (scope_at words.now at).number }
{
    Visibility::of(scope_visibility(words, at), scope_number(words, at))
}

pub fn scope_declared(words: &[u32], at: usize) -> usize
    ensures { result ≡ (scope_at words.now at).declared }
{
    field(words, at, 6)
}

/// 1 hidden + 2 unstable.
pub fn scope_bits(words: &[u32], at: usize) -> usize
    ensures { result ≡ (scope_at words.now at).bits }
{
    field(words, at, 7)
}

pub fn import_owner(words: &[u32], at: usize) -> Crate
    ensures { result.0 ≡ (import_at words.now at).owner }
{
    Crate(payload(words, at))
}

pub fn import_ns(words: &[u32], at: usize) -> usize
    ensures { result ≡ (import_at words.now at).ns }
{
    field(words, at, 1)
}

pub fn import_definition(words: &[u32], at: usize) -> DefinitionId
    ensures { result.0 ≡ (import_at words.now at).definition }
{
    DefinitionId(field(words, at, 2))
}

pub fn import_name(words: &[u32], at: usize) -> Name
    ensures { result.0 ≡ (import_at words.now at).name }
{
    Name(field(words, at, 3))
}

pub fn import_container(words: &[u32], at: usize) -> ModuleId
    ensures { result.0 ≡ (import_at words.now at).container }
{
    ModuleId(field(words, at, 4))
}

pub fn import_bits(words: &[u32], at: usize) -> usize
    ensures { result ≡ (import_at words.now at).bits }
{
    field(words, at, 5)
}

pub fn extern_owner(words: &[u32], at: usize) -> Crate
    ensures { result.0 ≡ (extern_at words.now at).owner }
{
    Crate(payload(words, at))
}

pub fn extern_name(words: &[u32], at: usize) -> Name
    ensures { result.0 ≡ (extern_at words.now at).name }
{
    Name(field(words, at, 1))
}

pub fn extern_target(words: &[u32], at: usize) -> ModuleId
    ensures { result.0 ≡ (extern_at words.now at).target }
{
    ModuleId(field(words, at, 2))
}

pub fn member_parent(words: &[u32], at: usize) -> DefinitionId
    ensures { result.0 ≡ (member_at words.now at).parent }
{
    DefinitionId(payload(words, at))
}

pub fn member_name(words: &[u32], at: usize) -> Name
    ensures { result.0 ≡ (member_at words.now at).name }
{
    Name(field(words, at, 1))
}

pub fn member_definition(words: &[u32], at: usize) -> DefinitionId
    ensures { result.0 ≡ (member_at words.now at).definition }
{
    DefinitionId(field(words, at, 2))
}

/// The number of a `MemberKind`, or another.
pub fn member_kind(words: &[u32], at: usize) -> usize
    ensures { result ≡ (member_at words.now at).kind }
{
    field(words, at, 3)
}

/// None for a number that is no kind's.
pub fn known_member_kind(words: &[u32], at: usize) -> Option<MemberKind>
    ensures { result ≡ member_kind_of (member_at words.now at).kind }
{
    MemberKind::of(member_kind(words, at))
}

/// 1 hidden + 2 unstable.
pub fn member_bits(words: &[u32], at: usize) -> usize
    ensures { result ≡ (member_at words.now at).bits }
{
    field(words, at, 4)
}
