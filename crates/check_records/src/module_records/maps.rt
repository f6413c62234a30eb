//! Kind 4: a map.
ghost use Rattle.std.specs.Prelude.{◌≡◌, List, ◌+◌, ◌-◌, ◌<◌, eqb, ◌&&◌, ◌||◌, not};
ghost use Rattle.snapshot.specs.Sizes.{map_size};
ghost use Rattle.snapshot.specs.Layouts.{module_head, own_map};
ghost use Rattle.snapshot.specs.Records.{Map, map_at};
ghost use Rattle.snapshot.specs.Layouts.{snap_with};
ghost use Rattle.check_rules.specs.Tests.{map_range, map_defined};
ghost use Rattle.check_rules.specs.Steps.{map_step};
ghost use Rattle.check_records.specs.record_rules.Stands.{Ready, Stands, Answered, counts_in};

use crate::record_rules::judge::judge;
use snapshot::ids::ModuleId;
use snapshot::layout::Layout;
use snapshot::record::{map_block, map_crate, map_no_std};
use snapshot::refusal::Refusal;
use snapshot::table::{Tables, module_head, own_map};

fn in_range(words: &[u32], at: usize) -> bool
    ensures { result ≡ map_range (map_at words.now at) }
{
    map_no_std(words, at) <= 1
}

fn defined(words: &[u32], l: Layout, at: usize) -> bool
    ensures { result ≡ map_defined (counts_in l) (map_at words.now at) }
{
    let krate = map_crate(words, at);
    (krate.0 < l.crates) & (map_block(words, at) <= l.modules)
}

// A second own map of its crate.
fn repeated(words: &[u32], area: &[u32], at: usize) -> bool
    ensures { result ≡ (eqb (map_at words.now at).block 0 && not
        (eqb (own_map area.now (map_at words.now at).crate) 0)) }
{
    (map_block(words, at) == 0) & (own_map(area, map_crate(words, at)) != 0)
}

// A block stands in its own crate.
fn placed(words: &[u32], area: &[u32], at: usize) -> bool
    ensures { result ≡ (eqb (map_at words.now at).block 0 || eqb
        (map_at words.now (module_head area.now ((map_at words.now at).block - 1))).crate
        (map_at words.now at).crate) }
{
    let block = map_block(words, at);
    if block == 0 {
        return true;
    }
    let here = map_crate(words, module_head(area, ModuleId(block - 1)));
    let krate = map_crate(words, at);
    here == krate
}

/// A map.
pub fn step(words: &[u32], area: &mut [u32], l: Layout, at: usize) -> Result<Layout, Refusal>
    requires { Ready words.now area.old l at (at + map_size) }
    ensures { (ms : List Map) → Stands words.now area.old 4 at l ms
        → Answered words.now area.new 4 (at + map_size)
        (map_step (snap_with words.now area.old l ms) (map_at words.now at)) result }
{
    judge(
        in_range(words, at),
        defined(words, l, at),
        repeated(words, area, at),
        placed(words, area, at),
        true,
    )?;
    let krate = map_crate(words, at);
    let mut m = l;
    m.maps = l.maps + 1;
    m.latest = at as u32;
    if map_block(words, at) == 0 {
        area[Tables::CRATES + krate.0] = (l.maps + 1) as u32;
    }
    Ok(m)
}
