//! The tables of the new numbers: a word a name of the second part, a word a definition of it.
ghost use Rattle.std.specs.Prelude.{◌≡◌, ◌+◌, ◌*◌, ◌^◌, ◌<◌, length, set};
ghost use Rattle.snapshot.specs.Sizes.{definition_size};
ghost use Rattle.snapshot.specs.Records.{definition_at};
ghost use Rattle.snapshot.specs.Layouts.{definition_base};
ghost use Rattle.hir_def.specs.Finds.{place_of};
ghost use Rattle.join_rules.specs.Joined.{name_number, same_builtin};
ghost use Rattle.join.specs.numbers.Parts.{ready_in, first_in, second_in};
ghost use Rattle.join.specs.numbers.Numbered.{name_table, Holds, number_by, fresh_by, NamesNumbered, DefinitionsNumbered, Numbered};

use crate::numbers::inputs::Parts;
use crate::numbers::places::{place_of_builtin, place_of_name};
use snapshot::ids::{DefinitionId, DefinitionKind, Name};
use snapshot::kind::Size;
use snapshot::reading::field;
use snapshot::record::{definition_first, known_definition_kind};
use snapshot::table::Tables;

/// The first word of each table.
#[derive(Clone, Copy)]
pub struct Moved;

impl Moved {
    pub const NAMES: usize = Tables::END;

    pub const DEFINITIONS: usize = Moved::NAMES + Name::LIMIT;
}

/// How many names and definitions of the second part are new.
#[derive(Clone, Copy)]
pub struct New {
    pub names: usize,
    pub definitions: usize,
}

// Writes the number of an element of the second part that stands at a place among so many of the first's, the next new one where it is past them;
// answers how many are new.
// The tables are words of the area that C lends; no map is made, since there is no heap.
fn put_number(area: &mut [u32], at: usize, old: usize, place: usize, fresh: usize) -> usize
    requires { (at < length area.old) × (old + fresh < 2 ^ 32) }
    ensures { (area.new ≡ set area.old at (number_by old place fresh)) × (result ≡ fresh_by old place fresh) }
{
    if place < old {
        area[at] = place as u32;
        return fresh;
    }
    area[at] = (old + fresh) as u32;
    fresh + 1
}

/// Fills the table of the names' numbers, and answers how many names are new.
pub fn number_names(parts: &Parts, area: &mut [u32]) -> usize
    requires { ready_in parts.now area.old }
    ensures { NamesNumbered (first_in parts.now) (second_in parts.now) area.old area.new result }
{
    let old = parts.first.layout.names;
    let count = parts.second.layout.names;
    let mut fresh = 0;
    for n in 0..count {
        let place = place_of_name(parts.first.words, old, parts.second.words, area, Name(n));
        fresh = put_number(area, Moved::NAMES + n, old, place, fresh);
    }
    fresh
}

// The number that a definition of the second part has among the first's, their count for none: only builtins are in both.
// The count for none, as in `place_of_name`: `number_by`, the definition of what is written, compares the two.
fn place_of_definition(parts: &Parts, area: &[u32], d: DefinitionId) -> usize
    requires ready { ready_in parts.now area.now × (d.0 < parts.now.second.layout.definitions) }
    requires holds { Holds area.now name_table (name_number (first_in parts.now) (second_in parts.now)) parts.now.second.layout.names }
    ensures { result ≡ place_of (same_builtin (first_in parts.now) (second_in parts.now)
        (definition_at parts.now.second.words.now (definition_base parts.now.second.layout + definition_size * d.0))) 0
        (first_in parts.now).definitions }
{
    let second = parts.second.words;
    let at = parts.second.layout.definition_base() + Size::DEFINITION * d.0;
    if known_definition_kind(second, at) != Some(DefinitionKind::Builtin) {
        return parts.first.layout.definitions;
    }
    let name = field(area, Moved::NAMES, definition_first(second, at));
    place_of_builtin(&parts.first, name)
}

/// Fills the table of the definitions' numbers, with that of the names' filled, and answers how many definitions are new.
// As `number_names`; the place is read in the area that the loop writes, so a closure for it would take the area, under a clause of its own.
pub fn number_definitions(parts: &Parts, area: &mut [u32]) -> usize
    requires ready { ready_in parts.now area.old }
    requires holds { Holds area.old name_table (name_number (first_in parts.now) (second_in parts.now)) parts.now.second.layout.names }
    ensures { DefinitionsNumbered (first_in parts.now) (second_in parts.now) area.old area.new result }
{
    let old = parts.first.layout.definitions;
    let count = parts.second.layout.definitions;
    let mut fresh = 0;
    for n in 0..count {
        let place = place_of_definition(parts, area, DefinitionId(n));
        fresh = put_number(area, Moved::DEFINITIONS + n, old, place, fresh);
    }
    fresh
}

/// Fills both tables.
pub fn number(parts: &Parts, area: &mut [u32]) -> New
    requires { ready_in parts.now area.old }
    ensures { Numbered (first_in parts.now) (second_in parts.now) area.old area.new result }
{
    let names = number_names(parts, area);
    let definitions = number_definitions(parts, area);
    New { names, definitions }
}
