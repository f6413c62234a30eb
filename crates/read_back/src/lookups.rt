//! Externs by their name, and an enum's variants by theirs.
ghost use Rattle.std.specs.Prelude.{◌≡◌, List, ℕ};
ghost use Rattle.snapshot.specs.Records.{extern_at, member_at};
ghost use Rattle.snapshot.specs.Laid.{snap_by};
ghost use Rattle.hir_def.specs.Entries.{entry_of};
ghost use Rattle.read_back.specs.readings.Reads.{is_extern_named, extern_named, is_variant_named, variant_named};

use hir_def::finds::first_where;
use hir_def::spans::{externs, members};
use snapshot::ids::{Crate, DefinitionId, MemberKind, Name};
use snapshot::record::{extern_name, extern_owner, known_member_kind, member_name, member_parent};
use snapshot::records::Records;

// Whether the extern with its head at a place is the crate's of that name.
// By the name, where `hir_def::crate_graph::is_extern` compares the target: one of both would take that reader, to save a line.
fn is_extern_named(words: &[u32], h: usize, c: Crate, name: Name) -> bool
    ensures { result ≡ is_extern_named c.0 name.0 (extern_at words.now h) }
{
    (extern_owner(words, h) == c) & (extern_name(words, h) == name)
}

/// The crate's extern of that name.
// The call of `first_where` with a test, as in `hir_def::item_scope::get`.
pub fn extern_named(records: &Records, c: Crate, name: Name) -> Option<usize>
    ensures { (A : List ℕ) → entry_of extern_at records.now.words.now result ≡ extern_named (snap_by records.now A) c.0 name.0 }
{
    let test = |h| is_extern_named(records.words, h, c, name);
    first_where(externs(records), test)
}

// Whether the member with its head at a place is the definition's variant of that name.
// The shape of `hir_def::item_scope::is_named` over a member's fields: one of both would take three readers.
fn is_variant_named(words: &[u32], h: usize, d: DefinitionId, name: Name) -> bool
    ensures { result ≡ is_variant_named d.0 name.0 (member_at words.now h) }
{
    (member_parent(words, h) == d)
        & ((known_member_kind(words, h) == Some(MemberKind::Variant))
            & (member_name(words, h) == name))
}

/// The definition's first variant of that name.
pub fn variant_named(records: &Records, d: DefinitionId, name: Name) -> Option<usize>
    ensures { (A : List ℕ) → entry_of member_at records.now.words.now result ≡ variant_named (snap_by records.now A) d.0 name.0 }
{
    let test = |h| is_variant_named(records.words, h, d, name);
    first_where(members(records), test)
}
