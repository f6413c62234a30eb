//! The first path to an item, of those that begin with a name or of the others.
ghost use Rattle.std.specs.Prelude.{true, false};
ghost use Rattle.accept.specs.Opened.{snap_in};
ghost use Rattle.hir_def.specs.Items.{ns_of, defined_item};
ghost use Rattle.nameable.specs.Breadth.{arrival};
ghost use Rattle.told_paths.specs.arrivals.Steps.{LeadsTo, Ready};

use crate::arrivals::LastStep;
use crate::arrivals::plain::plain_entry;
use crate::arrivals::rows::{by_rows, row_of};
use hir_def::{Item, View};
use snapshot::ids::{DefinitionId, ModuleId, Namespace};
use snapshot::record::scope_name;

// The first path that begins with a keyword or `::`, over the n rows of their run.
// As `arrive_plainly` for a module; shared, the other arm would be a closure for each of the two calls.
fn arrive_by_keyword(view: &View, n: usize, item: Item) -> Option<LastStep>
    requires { Ready false view.now n }
    ensures { LeadsTo (snap_in view.now.db) view.now.from.0 (ns_of item) view.now.db.area.now n
        (arrival false (snap_in view.now.db) view.now.from.0 item) result }
{
    match item {
        Item::Mod(m) => row_of(view.db.area, n, m),
        Item::Def(ns, d) => by_rows(view, n, Item::Def(ns, d)),
    }
}

// The same of what is no module, for paths that begin with a name.
fn plainly(view: &View, n: usize, ns: Namespace, d: DefinitionId) -> Option<LastStep>
    requires { Ready true view.now n }
    ensures { LeadsTo (snap_in view.now.db) view.now.from.0 ns.0 view.now.db.area.now n
        (arrival true (snap_in view.now.db) view.now.from.0 (defined_item ns.0 d.0)) result }
{
    if let Some(h) = plain_entry(view, ns, d) {
        let name = scope_name(view.db.records.words, h);
        return Some(LastStep {
            link: 2,
            name: name.0,
            at: h,
        });
    }
    by_rows(view, n, Item::Def(ns, d))
}

// The first path that begins with a name, over the n rows of their run.
fn arrive_plainly(view: &View, n: usize, item: Item) -> Option<LastStep>
    requires { Ready true view.now n }
    ensures { LeadsTo (snap_in view.now.db) view.now.from.0 (ns_of item) view.now.db.area.now n
        (arrival true (snap_in view.now.db) view.now.from.0 item) result }
{
    match item {
        Item::Mod(m) => row_of(view.db.area, n, m),
        Item::Def(ns, d) => plainly(view, n, ns, d),
    }
}

/// The first path to the item, of those that begin with a name or of the others, over the n rows of their run.
// `named` is a variable of the definitions (`Ready`, `arrival`), of which both cases are proved at once; so it is a bool.
pub fn arrive(view: &View, n: usize, item: Item, named: bool) -> Option<LastStep>
    requires { Ready named view.now n }
    ensures { LeadsTo (snap_in view.now.db) view.now.from.0 (ns_of item) view.now.db.area.now n
        (arrival named (snap_in view.now.db) view.now.from.0 item) result }
{
    if named {
        return arrive_plainly(view, n, item);
    }
    arrive_by_keyword(view, n, item)
}
