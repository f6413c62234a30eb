//! The first path to an item over a run, as it is told.
ghost use Rattle.std.specs.Prelude.{◌≡◌, ◌^◌, ◌<◌, IfSome, option_map};
ghost use Rattle.accept.specs.Opened.{snap_in};
ghost use Rattle.nameable.specs.Breadth.{arrival};
ghost use Rattle.told_paths.specs.arrivals.Steps.{Ready};
ghost use Rattle.told_paths.specs.Tells.{tell as tell_of};
ghost use Rattle.told_paths.specs.declared.ToldPath.{ToldPath};

use crate::ToldPath;
use crate::arrivals::arrivals::arrive;
use crate::paths::tell;
use hir_def::{Item, View};
use snapshot::ids::ModuleId;

// `named` is passed on as it came, to `arrive`.
pub(crate) fn arrival_told(view: &View, n: usize, item: Item, named: bool) -> Option<ToldPath>
    requires { Ready named view.now n }
    ensures value { result ≡ option_map tell_of (arrival named (snap_in view.now.db) view.now.from.0 item) }
    ensures count_bound { IfSome result (λ (t : ToldPath). t.count < 2 ^ 32) }
{
    let step = arrive(view, n, item, named);
    tell(view.db.area, n, step)
}
