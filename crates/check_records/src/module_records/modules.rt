//! Kind 5: a module.
ghost use Rattle.std.specs.Prelude.{◌≡◌, List, ◌+◌, ◌-◌, ◌*◌, ◌<◌, ◌≤◌, eqb, ◌&&◌, ◌||◌, not};
ghost use Rattle.snapshot.specs.Lists.{any};
ghost use Rattle.snapshot.specs.Limits.{module_limit};
ghost use Rattle.snapshot.specs.Sizes.{module_size};
ghost use Rattle.snapshot.specs.Layouts.{modules_of, module_map};
ghost use Rattle.snapshot.specs.Records.{Map, module_at};
ghost use Rattle.snapshot.specs.Layouts.{snap_with};
ghost use Rattle.check_rules.specs.Tests.{module_defined, is_in};
ghost use Rattle.check_rules.specs.Steps.{module_step};
ghost use Rattle.check_records.specs.record_rules.Stands.{Ready, Stands, Answered, counts_in};

use crate::record_rules::judge::judge;
use snapshot::ids::ModuleId;
use snapshot::layout::Layout;
use snapshot::record::{module_map as map_named, module_parent as parent_named};
use snapshot::refusal::Refusal;
use snapshot::table::{Tables, module_map};

fn defined(words: &[u32], l: Layout, at: usize) -> bool
    ensures { result ≡ module_defined (counts_in l) (module_at words.now at) }
{
    (map_named(words, at) < l.maps) & (parent_named(words, at) <= l.modules)
}

/// Whether one of the first n modules is of a map.
// The table of modules has 512 places in the area, of which the first n are filled.
pub fn has_module(area: &[u32], n: usize, map: usize) -> bool
    requires { n ≤ module_limit }
    ensures { result ≡ any (is_in map) (modules_of area.now n) }
{
    for m in 0..n {
        if module_map(area, ModuleId(m)) == map {
            return true;
        }
    }
    false
}

// No parent, or one of the same map.
fn parent_placed(words: &[u32], area: &[u32], at: usize) -> bool
    ensures { result ≡ (eqb (module_at words.now at).parent 0 || eqb
        (module_map area.now ((module_at words.now at).parent - 1)) (module_at words.now at).map) }
{
    let parent = parent_named(words, at);
    if parent == 0 {
        return true;
    }
    module_map(area, ModuleId(parent - 1)) == map_named(words, at)
}

// Of the latest map, which has a root and no other module without a parent.
fn placed(words: &[u32], area: &[u32], l: Layout, at: usize) -> bool
    requires { l.modules ≤ module_limit }
    ensures { result ≡ (eqb ((module_at words.now at).map + 1) l.maps &&
        (any (is_in (module_at words.now at).map) (modules_of area.now l.modules) || eqb
        (module_at words.now at).parent 0) &&
        (not (any (is_in (module_at words.now at).map) (modules_of area.now l.modules)) || not
        (eqb (module_at words.now at).parent 0)) && (eqb (module_at words.now at).parent 0 || eqb
        (module_map area.now ((module_at words.now at).parent - 1)) (module_at words.now at).map)) }
{
    let map = map_named(words, at);
    let root = parent_named(words, at) == 0;
    let old = has_module(area, l.modules, map);
    (map + 1 == l.maps) & (old | root) & (!old | !root) & parent_placed(words, area, at)
}

/// A module.
pub fn step(words: &[u32], area: &mut [u32], l: Layout, at: usize) -> Result<Layout, Refusal>
    requires { Ready words.now area.old l at (at + module_size) }
    ensures { (ms : List Map) → Stands words.now area.old 5 at l ms
        → Answered words.now area.new 5 (at + module_size)
        (module_step (snap_with words.now area.old l ms) (module_at words.now at)) result }
{
    let modules = l.modules;
    judge(
        true,
        defined(words, l, at),
        false,
        placed(words, area, l, at),
        modules < ModuleId::LIMIT,
    )?;
    let row = Tables::MODULES + 3 * modules;
    area[row] = map_named(words, at) as u32;
    area[row + 1] = l.latest;
    area[row + 2] = parent_named(words, at) as u32;
    let mut m = l;
    m.modules = modules + 1;
    Ok(m)
}
