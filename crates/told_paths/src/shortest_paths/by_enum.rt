//! A variant by its enum.
ghost use Rattle.std.specs.Prelude.{◌≡◌, List, ℕ, ◌<◌, option_map};
ghost use Rattle.snapshot.specs.Laid.{snap_by};
ghost use Rattle.accept.specs.Opened.{snap_in};
ghost use Rattle.hir_def.specs.Items.{defined_item};
ghost use Rattle.nameable.specs.Paths.{named as named_in, variants_in, item_in};
ghost use Rattle.nameable.specs.Breadth.{is_item, by_enum};
ghost use Rattle.told_paths.specs.arrivals.Steps.{Ready};
ghost use Rattle.told_paths.specs.Tells.{tell};

use crate::ToldPath;
use crate::paths::more;
use crate::shortest_paths::told::arrival_told;
use hir_def::items::{first_of, known_kind_of, second_of};
use hir_def::{Item, View};
use read_back::lookups::variant_named;
use snapshot::ids::{DefinitionId, DefinitionKind, ModuleId, Name, Namespace};
use snapshot::record::member_definition;
use snapshot::records::Records;

// Whether the enum's first variant of that name is the definition.
fn is_variant(records: &Records, ns: usize, e: DefinitionId, name: Name, d: DefinitionId) -> bool
    ensures { (A : List ℕ)
        → result ≡ is_item (defined_item ns d.0) (item_in (named_in name.0 (variants_in (snap_by records.now A) ns e.0))) }
{
    if Namespace::MACROS <= ns {
        return false;
    }
    let Some(h) = variant_named(records, e, name) else {
        return false;
    };
    member_definition(records.words, h) == d
}

// A definition by its enum's first path and its own name.
// `named` is passed on as it came: the clause is over it.
fn variant_told(
    view: &View,
    n: usize,
    ns: Namespace,
    d: DefinitionId,
    named: bool,
) -> Option<ToldPath>
    requires { Ready named view.now n }
    ensures { result ≡ option_map tell (by_enum named (snap_in view.now.db) view.now.from.0 (defined_item ns.0 d.0)) }
{
    let records = &view.db.records;
    if known_kind_of(records, d) != Some(DefinitionKind::Variant) {
        return None;
    }
    let e = DefinitionId(first_of(records, d));
    let name = Name(second_of(records, d));
    if !is_variant(records, ns.0, e, name, d) {
        return None;
    }
    let its = Item::Def(Namespace(Namespace::TYPES), e);
    let t = arrival_told(view, n, its, named)?;
    Some(more(t, name.0))
}

/// The path to an item that is a variant, by its enum; none for another item.
// `named` as in `variant_told`.
pub(crate) fn enum_told(view: &View, n: usize, item: Item, named: bool) -> Option<ToldPath>
    requires { Ready named view.now n }
    ensures { result ≡ option_map tell (by_enum named (snap_in view.now.db) view.now.from.0 item) }
{
    match item {
        Item::Mod(_) => None,
        Item::Def(ns, d) => variant_told(view, n, ns, d, named),
    }
}
