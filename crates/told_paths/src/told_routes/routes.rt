//! The records by which the names of a path that is told are read, in order.
ghost use Rattle.std.specs.Prelude.{◌≡◌, ◌+◌, ◌<◌, ◌≤◌};
ghost use Rattle.accept.specs.Opened.{snap_in};
ghost use Rattle.nameable.specs.Paths.{Path, names_in, route_of};
ghost use Rattle.nameable.specs.Breadth.{names_limit};
ghost use Rattle.told_paths.specs.Tells.{padded, tell};
ghost use Rattle.told_paths.specs.told_routes.Routes.{path_by, ns_of_first};

use crate::ToldPath;
use crate::paths::NameCount;
use crate::told_routes::names::read_name;
use crate::told_routes::starts::start;
use hir_def::View;
use snapshot::ids::{ModuleId, Name, Namespace};

// Where the last of k names is looked up, of so many.
// `read_back::looked_in` answers the same over the definition of another list of names, counted from the first.
// A namespace for the last name and types before it; `printing::wording::chosen` has the shape alone, over texts.
fn looked_in(ns: usize, k: usize, count: usize) -> usize
    ensures { result ≡ ns_of_first ns count k }
{
    if k == count {
        return ns;
    }
    Namespace::TYPES
}

// The places of the records by which the names are read.
fn route_by(view: &View, ns: usize, t: ToldPath) -> [usize; 16]
    requires { t.count ≤ names_limit }
    ensures { result ≡ padded (route_of (snap_in view.now.db) view.now.from.0 ns
        (path_by t.kind t.supers t.names t.count)) }
{
    let names = t.names;
    let kind = t.kind;
    let count = t.count;
    let mut here = start(view, kind, t.supers);
    let mut route = [0usize; 16];
    for k in 0..count {
        let its = looked_in(ns, k + 1, count);
        let x = read_name(view, kind, k, here, its, Name(names[k]));
        // The route is words for C: 0 for none.
        route[k] = x.map_or(0, |its| its.place);
        here = x.map(|its| its.item);
    }
    route
}

/// The places of the records by which the names of a path are read, the last in the namespace.
pub fn route_of(view: &View, ns: usize, t: ToldPath) -> [usize; 16]
    ensures { (p : Path) → t ≡ tell p → names_in p ≤ names_limit
        → result ≡ padded (route_of (snap_in view.now.db) view.now.from.0 ns p) }
{
    if NameCount::LIMIT < t.count {
        let none = [0usize; 16];
        return none;
    }
    route_by(view, ns, t)
}
