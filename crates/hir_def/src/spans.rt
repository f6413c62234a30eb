//! The records of each kind that is searched.
ghost use Rattle.std.specs.Prelude.{◌^◌, ◌<◌};
ghost use Rattle.snapshot.specs.Sizes.{dependency_size, prelude_size, definition_size, scope_size, import_size, extern_size, member_size};
ghost use Rattle.snapshot.specs.Layouts.{dependency_base, prelude_base, definition_base, scope_base, import_base, extern_base, member_base};
ghost use Rattle.hir_def.specs.Spans.{Covers, Parted};

use crate::{Part, Span};
use accept::opened::Snapshot;
use snapshot::ids::Crate;
use snapshot::kind::Size;
use snapshot::reading::word;
use snapshot::records::Records;

// One for each kind: what differs is the accessor of its base, its size and the field of its number, so one over `Kind` would match on it
// three times, with a case for kinds that are not searched.
/// The dependencies.
pub fn dependencies(records: &Records) -> Span
    ensures { Covers result (dependency_base records.now.layout) dependency_size records.now.layout.dependencies }
{
    Span {
        base: records.layout.dependency_base(),
        size: Size::DEPENDENCY,
        count: records.layout.dependencies,
    }
}

/// The preludes.
pub fn preludes(records: &Records) -> Span
    ensures { Covers result (prelude_base records.now.layout) prelude_size records.now.layout.preludes }
{
    Span {
        base: records.layout.prelude_base(),
        size: Size::PRELUDE,
        count: records.layout.preludes,
    }
}

/// The definitions.
pub fn definitions(records: &Records) -> Span
    ensures { Covers result (definition_base records.now.layout) definition_size records.now.layout.definitions }
{
    Span {
        base: records.layout.definition_base(),
        size: Size::DEFINITION,
        count: records.layout.definitions,
    }
}

/// The entries of scopes.
pub fn scopes(records: &Records) -> Span
    ensures { Covers result (scope_base records.now.layout) scope_size records.now.layout.scopes }
{
    Span {
        base: records.layout.scope_base(),
        size: Size::SCOPE,
        count: records.layout.scopes,
    }
}

/// The imports.
pub fn imports(records: &Records) -> Span
    ensures { Covers result (import_base records.now.layout) import_size records.now.layout.imports }
{
    Span {
        base: records.layout.import_base(),
        size: Size::IMPORT,
        count: records.layout.imports,
    }
}

/// The externs.
pub fn externs(records: &Records) -> Span
    ensures { Covers result (extern_base records.now.layout) extern_size records.now.layout.externs }
{
    Span {
        base: records.layout.extern_base(),
        size: Size::EXTERN,
        count: records.layout.externs,
    }
}

/// The members.
pub fn members(records: &Records) -> Span
    ensures { Covers result (member_base records.now.layout) member_size records.now.layout.members }
{
    Span {
        base: records.layout.member_base(),
        size: Size::MEMBER,
        count: records.layout.members,
    }
}

/// Where the records of a crate stand, by the table of their kind.
pub fn part_of(db: &Snapshot, at: usize, c: Crate) -> Part
    requires { at < 2 ^ 32 }
    ensures { Parted db.now.records.layout db.now.area.now at c.0 result }
{
    if db.records.layout.crates <= c.0 {
        return Part { low: 0, high: 0 };
    }
    Part {
        low: word(db.area, at + c.0),
        high: word(db.area, at + Crate::LIMIT + c.0),
    }
}
