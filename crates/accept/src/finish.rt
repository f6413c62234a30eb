//! What is asked after the last record, and the table of the maps' roots.
ghost use Rattle.std.specs.Prelude.{◌≡◌, not, ℕ, ◌≤◌, ◌<◌, ◌^◌, length, eqb};
ghost use Rattle.snapshot.specs.Lists.{rows, any, all};
ghost use Rattle.snapshot.specs.Limits.{crate_limit, module_limit, area_limit};
ghost use Rattle.snapshot.specs.Layouts.{modules_of, module_map, own_map};
ghost use Rattle.check_rules.specs.Tests.{is_in};
ghost use Rattle.check_records.specs.record_rules.Stands.{Rooted};

use check_records::module_records::modules::has_module;
use snapshot::ids::{Crate, ModuleId};
use snapshot::table::{Tables, module_map, own_map};

/// Whether every map has a module.
pub fn maps_filled(area: &[u32], maps: usize, modules: usize) -> bool
    requires { (maps < 2 ^ 32) × (modules ≤ module_limit) }
    ensures { result ≡ all (λ k. any (is_in k) (modules_of area.now modules)) (rows (λ k. k) 0 maps) }
{
    for k in 0..maps {
        if !has_module(area, modules, k) {
            return false;
        }
    }
    true
}

/// Whether every crate has an own map.
pub fn crates_own(area: &[u32], crates: usize) -> bool
    requires { crates ≤ crate_limit }
    ensures { result ≡ all (λ c. not (eqb (own_map area.now c) 0)) (rows (λ c. c) 0 crates) }
{
    for c in 0..crates {
        if own_map(area, Crate(c)) == 0 {
            return false;
        }
    }
    true
}

/// Writes each map's first module, the last module first.
pub fn fill_roots(area: &mut [u32], modules: usize)
    requires area_limit_in_bounds { (area_limit ≤ length area.old) × (modules ≤ module_limit) }
    requires by_index { (m : ℕ) → m < modules → module_map area.old m < module_limit }
    ensures { Rooted area.old area.new modules }
{
    for m in (0..modules).rev() {
        let map = module_map(area, ModuleId(m));
        area[Tables::ROOTS + map] = m as u32;
    }
}
