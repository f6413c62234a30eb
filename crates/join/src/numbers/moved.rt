//! The new number of a name or a definition of the second part. Its crates, maps and modules follow those of the first.
ghost use Rattle.std.specs.Prelude.{◌≡◌, ◌^◌, ◌<◌, length};
ghost use Rattle.snapshot.specs.Records.{Snapshot};
ghost use Rattle.join_rules.specs.Joined.{second_numbers};
ghost use Rattle.join.specs.numbers.Numbered.{NumbersIn};

use crate::numbers::tables::Moved;
use snapshot::ids::{DefinitionId, Name};
use snapshot::reading::word;

/// The number that a name of the second part has in the two joined.
pub fn moved_name(area: &[u32], n: Name) -> Name
    requires { n.0 < 2 ^ 32 }
    ensures { (s t : Snapshot) → NumbersIn s t area.now → n.0 < length t.names → result.0 ≡ (second_numbers s t).names n.0 }
{
    Name(word(area, Moved::NAMES + n.0))
}

/// The number that a definition of the second part has in the two joined.
pub fn moved_definition(area: &[u32], d: DefinitionId) -> DefinitionId
    requires { d.0 < 2 ^ 32 }
    ensures { (s t : Snapshot) → NumbersIn s t area.now → d.0 < length t.definitions
        → result.0 ≡ (second_numbers s t).definitions d.0 }
{
    DefinitionId(word(area, Moved::DEFINITIONS + d.0))
}
