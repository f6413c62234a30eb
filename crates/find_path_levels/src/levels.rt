//! Levels in the work area: three words (item, place of the level below, cursor), and then a run of modules.
ghost use Rattle.std.specs.Prelude.{◌≡◌, [], ◌∷◌, ℕ, ◌+◌, ◌-◌, ◌<◌, ◌≤◌, ◌&&◌, eqb, get_or, length};
ghost use Rattle.snapshot.specs.Limits.{module_limit};
ghost use Rattle.find_path_spec.specs.Walk.{has as has_in, visited as visited_in};
ghost use Rattle.find_path_levels.specs.Levels.{code_of, run_at, levels_of, Chain, walk_room, Placed};
ghost use Rattle.find_path_levels.specs.Each.{AnyBy};
ghost use Rattle.find_path_levels.specs.Post.{Ready, Pushed};

use crate::{Sought, Stack};
use hir_def::Item;
use snapshot::ids::ModuleId;
use snapshot::reading::word;

// An item as one word.
pub fn code_of(sought: Sought) -> usize
    ensures { (result ≡ code_of sought.item) × (result < 8192) }
{
    match sought.item {
        Item::Mod(m) => 4 * m.0 + 3,
        Item::Def(ns, d) => 4 * d.0 + ns.0,
    }
}

/// Whether m is among the n words from a place on.
pub fn has(area: &[u32], from: usize, n: usize, m: ModuleId) -> bool
    requires { from + n ≤ length area.now }
    ensures { result ≡ has_in (run_at area.now from n) m.0 }
{
    for i in 0..n {
        if m.0 == word(area, from + i) {
            return true;
        }
    }
    false
}

/// Whether some level passes a test of the place of its run.
pub fn any_level<F: Fn(usize) -> bool>(area: &[u32], s: Stack, test: F) -> bool
    requires chain { Chain area.now s.place s.depth (length area.now) }
    requires takes { (p : ℕ) → 3 ≤ p → p + (get_or area.now (p - 1) 0 + 1) ≤ length area.now → F.pre test p }
    ensures { AnyBy (F.post test) area.now s.place s.depth result }
{
    let mut p = s.place;
    for _level in 0..s.depth {
        if test(p) {
            return true;
        }
        p = word(area, p - 2);
    }
    false
}

// Whether the level with its run at a place is a search for the item of that word that has taken m.
fn has_taken(area: &[u32], p: usize, code: usize, m: ModuleId) -> bool
    requires { (3 ≤ p) × (p + (get_or area.now (p - 1) 0 + 1) ≤ length area.now) }
    ensures { result ≡ (eqb (get_or area.now (p - 3) 0) code && has_in (run_at area.now p (get_or area.now (p - 1) 0 + 1)) m.0) }
{
    word(area, p - 3) == code && has(area, p, word(area, p - 1) + 1, m)
}

// Whether a level is a search for the item that has taken m.
fn visited(area: &[u32], s: Stack, sought: Sought, m: ModuleId) -> bool
    requires { Chain area.now s.place s.depth (length area.now) }
    ensures { result ≡ visited_in (levels_of area.now s.place s.depth) sought.item m.0 }
{
    let code = code_of(sought);
    let test = |p| has_taken(area, p, code, m);
    any_level(area, s, test)
}

// Whether m is on the run of n modules at the top: past the room of the run stands the place of each that is.
// No words need be cleared: a place that was not written is that of another module, or past the run.
fn is_placed(area: &[u32], top: usize, n: usize, m: ModuleId) -> bool
    requires { (top + walk_room ≤ length area.now) × (m.0 < module_limit) × Placed area.now top n }
    ensures { result ≡ has_in (run_at area.now top n) m.0 }
{
    let k = word(area, top + ModuleId::LIMIT + m.0);
    if n <= k {
        return false;
    }
    word(area, top + k) == m.0
}

// One module goes to the end of the run of n modules at the top, unless it is visited or on it.
pub(crate) fn push_module(
    area: &mut [u32],
    s: Stack,
    n: usize,
    sought: Sought,
    m: ModuleId,
) -> usize
    requires { Ready area.old s n × (m.0 < module_limit) }
    ensures { Pushed area.old s n sought.item (m.0 ∷ []) area.new result }
{
    if visited(area, s, sought, m) {
        return n;
    }
    if is_placed(area, s.top, n, m) {
        return n;
    }
    area[s.top + n] = m.0 as u32;
    area[s.top + ModuleId::LIMIT + m.0] = n as u32;
    n + 1
}
