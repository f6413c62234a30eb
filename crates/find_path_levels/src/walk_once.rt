//! The walk of a local search for an item that no search under way is for: the same for all of them, so it is done once a question.

ghost use Rattle.std.specs.Prelude.{◌≡◌, false, ℕ, ◌+◌, ◌≤◌, ◌<◌, length};
ghost use Rattle.snapshot.specs.Limits.{module_limit, area_limit};
ghost use Rattle.snapshot.specs.Laid.{snap_by};
ghost use Rattle.accept.specs.Post.{Reads};
ghost use Rattle.find_path_spec.specs.Walk.{visited, find_local_import_locations};
ghost use Rattle.find_path_levels.specs.Levels.{levels_of, Chain, walk_room};
ghost use Rattle.find_path_levels.specs.Post.{Gathered};
ghost use Rattle.find_path_levels.specs.walk_once.Walked.{walk_end, Walked};
ghost use Rattle.find_path_levels.specs.walk_once.Post.{Copied, Kept};

use crate::levels::{any_level, code_of};
use crate::locations::find_local_import_locations;
use crate::{Sought, Stack};
use snapshot::ids::{Area, ModuleId};
use snapshot::reading::word;
use snapshot::records::Records;

/// Where the walk stands: its modules, and then how many they are.
#[derive(Clone, Copy)]
pub struct Walk;

impl Walk {
    pub const AT: usize = 7616;

    pub const COUNT: usize = 8128;

    pub const END: usize = 8129;
}

/// Takes the walk past no visited module.
pub fn take_walk(records: &Records, area: &mut Area, from: ModuleId, sought: Sought)
    requires { Reads records.now.words.now area.old records.now.layout × (from.0 < records.now.layout.modules) }
    ensures { Kept records.now.words.now area.old records.now.layout from.0 area.new }
{
    let none = Stack {
        top: Walk::AT,
        place: 0,
        depth: 0,
    };
    let n = find_local_import_locations(records, area, from, none, sought);
    area[Walk::COUNT] = n as u32;
}

// Whether a level is a search for the item.
// `find_path_levels::visited` calls `any_level` too, with another test: the call is all that they share.
fn is_on(area: &[u32], s: Stack, sought: Sought) -> bool
    requires { Chain area.now s.place s.depth (length area.now) }
    ensures { result ≡ false → (m : ℕ) → visited (levels_of area.now s.place s.depth) sought.item m ≡ false }
{
    let code = code_of(sought);
    let test = |p| word(area, p - 3) == code;
    any_level(area, s, test)
}

// Copies the first n modules of the walk.
// A loop: `copy_within` has C bring a `memmove`.
fn copy_walk(area: &mut [u32], to: usize, n: usize)
    requires { (walk_end ≤ to) × (to + module_limit ≤ length area.old) × (n ≤ module_limit) }
    ensures { Copied area.old to n area.new }
{
    for i in 0..n {
        area[to + i] = area[Walk::AT + i];
    }
}

/// The modules that a local search for the item takes, in order, as a run at the top: the walk, unless a level is for the item.
pub fn locations(
    records: &Records,
    area: &mut [u32],
    from: ModuleId,
    s: Stack,
    sought: Sought,
) -> usize
    requires { Reads records.now.words.now area.old records.now.layout × (from.0 < records.now.layout.modules) × (walk_end ≤ s.top)
        × (s.top + walk_room ≤ length area.old) × Chain area.old s.place s.depth s.top × Walked (snap_by records.now area.old) from.0 area.old }
    ensures { Gathered area.old s.top (find_local_import_locations (snap_by records.now area.old)
        from.0 (visited (levels_of area.old s.place s.depth) sought.item)) area.new result }
{
    if is_on(area, s, sought) {
        return find_local_import_locations(records, area, from, s, sought);
    }
    let n = word(area, Walk::COUNT);
    copy_walk(area, s.top, n);
    n
}
