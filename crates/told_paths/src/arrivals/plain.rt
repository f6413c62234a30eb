//! The first plain name of an item that is no module.
ghost use Rattle.std.specs.Prelude.{◌≡◌, List, ℕ, ◌<◌};
ghost use Rattle.snapshot.specs.Records.{scope_at};
ghost use Rattle.snapshot.specs.Laid.{snap_by};
ghost use Rattle.check_records.specs.record_rules.Stands.{counts_in};
ghost use Rattle.accept.specs.Valid.{ScopeFits};
ghost use Rattle.accept.specs.Opened.{snap_in};
ghost use Rattle.module_tree.specs.rules.Modules.{map_no};
ghost use Rattle.hir_def.specs.Entries.{entry_of};
ghost use Rattle.hir_def.specs.Finds.{first_some};
ghost use Rattle.hir_def.specs.Items.{item_of, same_item, defined_item};
ghost use Rattle.hir_def.specs.Nameres.{prelude_of};
ghost use Rattle.nameable.specs.Paths.{plain, means, scopes_from};
ghost use Rattle.nameable.specs.Breadth.{is_item};
ghost use Rattle.told_paths.specs.arrivals.Steps.{is_plain_for, plain_in, plain_in_prelude, plain_entry};

use any_path::plain::{Reading, read_plain};
use any_path::seen_entries::entries::seen;
use any_path::seen_entries::privacy::block_step;
use hir_def::crate_graph::prelude_of;
use hir_def::finds::{first_where, nearest};
use hir_def::item_scope::is_for;
use hir_def::items::item_at;
use hir_def::spans::scopes;
use hir_def::{Item, View};
use module_tree::modules::map;
use snapshot::ids::{DefinitionId, ModuleId, Name, Namespace};
use snapshot::record::{prelude_target, scope_name};
use snapshot::records::Records;

// Whether the entry with its head at a place is for the item.
fn is_entry_for(records: &Records, h: usize, item: Item) -> bool
    ensures { (A : List ℕ) → result ≡ same_item (item_of (snap_by records.now A) (scope_at records.now.words.now h).ns
        (scope_at records.now.words.now h).definition) item }
{
    item_at(records, h) == item
}

// Whether a plain name means the item, which is no module.
fn means_item(view: &View, ns: Namespace, d: DefinitionId, name: Name) -> bool
    ensures { result ≡ is_item (defined_item ns.0 d.0) (means (snap_in view.now.db) view.now.from.0
        ns.0 (plain name.0)) }
{
    match read_plain(view, ns.0, name) {
        Some(Reading::Scope(h)) => is_entry_for(&view.db.records, h, Item::Def(ns, d)),
        Some(Reading::Extern(_)) => false,
        None => false,
    }
}

// Whether the entry with its head at a place is a seen one of the module for the item, whose name alone means the item.
fn is_plain_for(view: &View, m: ModuleId, ns: Namespace, d: DefinitionId, h: usize) -> bool
    requires { ScopeFits (counts_in view.now.db.records.layout) (scope_at view.now.db.records.words.now h) }
    ensures { result ≡ is_plain_for (snap_in view.now.db) view.now.from.0 m.0 (defined_item ns.0 d.0)
        (scope_at view.now.db.records.words.now h) }
{
    if is_for(&view.db.records, h, m, Item::Def(ns, d)) {
        if seen(view, h) {
            return means_item(view, ns, d, scope_name(view.db.records.words, h));
        }
    }
    false
}

// The first such entry of the module: the call of `first_where` with a test, as in `hir_def::item_scope::get`.
fn plain_in(view: &View, m: ModuleId, ns: Namespace, d: DefinitionId) -> Option<usize>
    ensures { entry_of scope_at view.now.db.records.words.now result ≡ plain_in (snap_in view.now.db) view.now.from.0
        (defined_item ns.0 d.0) m.0 }
{
    let test = |h| is_plain_for(view, m, ns, d, h);
    first_where(scopes(&view.db.records), test)
}

// The first in the viewer's scopes.
fn plain_around(view: &View, ns: Namespace, d: DefinitionId) -> Option<usize>
    ensures { entry_of scope_at view.now.db.records.words.now result ≡ first_some (plain_in (snap_in view.now.db)
        view.now.from.0 (defined_item ns.0 d.0)) (scopes_from (snap_in view.now.db) view.now.from.0) }
{
    let find = |m| plain_in(view, m, ns, d);
    let outward = |m| block_step(&view.db, m);
    nearest(view.from, find, outward)
}

// The first in the prelude of the viewer's map.
fn plain_in_prelude(view: &View, ns: Namespace, d: DefinitionId) -> Option<usize>
    ensures { entry_of scope_at view.now.db.records.words.now result ≡ plain_in_prelude (snap_in view.now.db)
        view.now.from.0 (defined_item ns.0 d.0) (prelude_of (snap_in view.now.db)
        (map_no (snap_in view.now.db) view.now.from.0)) }
{
    let p = prelude_of(&view.db.records, map(&view.db, view.from))?;
    plain_in(view, prelude_target(view.db.records.words, p), ns, d)
}

/// The entry by which a plain name means the item, which is no module.
pub(crate) fn plain_entry(view: &View, ns: Namespace, d: DefinitionId) -> Option<usize>
    ensures { entry_of scope_at view.now.db.records.words.now result ≡ plain_entry (snap_in view.now.db)
        view.now.from.0 (defined_item ns.0 d.0) }
{
    let outer = || plain_in_prelude(view, ns, d);
    plain_around(view, ns, d).or_else(outer)
}
