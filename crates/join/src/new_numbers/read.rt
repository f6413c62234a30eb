//! New numbers: of names and definitions read from the work area that `new_numbers` left, of others by how many the first snapshot has.
ghost use Rattle.std.specs.Prelude.{◌≡◌, ◌+◌, ◌<◌, ◌^◌};
ghost use Rattle.join.specs.new_numbers.New.{NewName, NewDefinition, NewCrate, NewMap, NewModule};

use crate::numbers::moved::{moved_definition, moved_name};
use snapshot::ids::{DefinitionId, Name};

/// The new number of a name of the second snapshot.
// C takes and gets a number; 0 past 32 bits, where no snapshot has a name and the clause says nothing. So in the four below.
// `name` is a number of the second snapshot and no length.
pub fn new_name(area: &[u32], name: usize) -> usize
    ensures { NewName area.now name result }
{
    if 4294967295 < name {
        return 0;
    }
    moved_name(area, Name(name)).0
}

/// The new number of a definition of the second snapshot.
// The table and the type of the number are others than a name's: kept apart so that no name is looked up among definitions.
pub fn new_definition(area: &[u32], definition: usize) -> usize
    ensures { NewDefinition area.now definition result }
{
    if 4294967295 < definition {
        return 0;
    }
    moved_definition(area, DefinitionId(definition)).0
}

// A number of the second, after those of the first.
fn after(first: usize, number: usize) -> usize
    ensures { first < 2 ^ 32 → number < 2 ^ 32 → result ≡ first + number }
{
    if 4294967295 < first {
        return 0;
    }
    if 4294967295 < number {
        return 0;
    }
    first + number
}

/// The new number of a crate of the second snapshot: the first has so many.
pub fn new_crate(first: usize, number: usize) -> usize
    ensures { NewCrate first number result }
{
    after(first, number)
}

/// The new number of a map of the second snapshot: the first has so many.
pub fn new_map(first: usize, number: usize) -> usize
    ensures { NewMap first number result }
{
    after(first, number)
}

/// The new number of a module of the second snapshot: the first has so many.
pub fn new_module(first: usize, number: usize) -> usize
    ensures { NewModule first number result }
{
    after(first, number)
}
