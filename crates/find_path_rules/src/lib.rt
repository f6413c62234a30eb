//! What is set for a question, and the rules that answer without a search.
//! Uses the lookups, and no laws of the search.
#![tactic(auto)]

ghost use Rattle.std.specs.Prelude.{◌≡◌, ℕ, ◌<◌, option_map};
ghost use Rattle.snapshot.specs.Records as lists;
ghost use Rattle.snapshot.specs.Records.{scope_at, extern_at};
ghost use Rattle.check_records.specs.record_rules.Stands.{counts_in};
ghost use Rattle.accept.specs.Valid.{ScopeFits, ExternFits};
ghost use Rattle.accept.specs.Opened.{snap_in};
ghost use Rattle.hir_def.specs.Items.{parent_of};
ghost use Rattle.hir_def.specs.Entries.{entry_of};
ghost use Rattle.std.specs.Prelude.{Some};
ghost use Rattle.snapshot.specs.PathKinds.{path_kind_number};
ghost use Rattle.find_path_choice.specs.StepRules.{rule_number};
ghost use Rattle.find_path_choice.specs.Given.{given};
ghost use Rattle.find_path_spec.specs.declared.FindPathCtx.{FindPathCtx};
ghost use Rattle.find_path_spec.specs.Conditions.{EntryFits};
ghost use Rattle.find_path_spec.specs.Rules.{prefix_path_kind, single as single_of, find_in_scope, may_be_in_scope};
ghost use Rattle.find_path_spec.specs.Rules.{scope_rule, prelude_entry, find_in_prelude, prelude_rule, extern_name};
ghost use Rattle.find_path_spec.specs.Rules.{root_rule, parent_kind, is_kw_kind_relative_to_from, keyword_of, module_rules};

pub mod path_context;
pub mod rule_lookups;

use crate::rule_lookups::{Rule, entry_by, is_usable};
use accept::opened::Snapshot;
use find_path_choice::Choice;
use find_path_choice::choices::{StepRule, keyword, step_by};
use find_path_spec::FindPathCtx;
use hir_def::Item;
use hir_def::crate_graph::{extern_of, prelude_of};
use hir_def::nameres::{occupied, scope_entry};
use module_tree::modules::{crate_root, in_block, krate, map, parent, root};
use snapshot::ids::{ModuleId, PathKind, Prefix};
use snapshot::record::{extern_name, prelude_target, scope_name};

// The path kind of a prefix.
// Any number is a prefix here, as in `FindPathCtx`, and the definition gives that of a plain path to those past the third.
fn prefix_path_kind(prefix: usize) -> PathKind
    ensures { path_kind_number result ≡ prefix_path_kind prefix }
{
    if prefix == Prefix::BySelf as usize {
        return PathKind::SelfModule;
    }
    if prefix == Prefix::ByCrate as usize {
        return PathKind::Crate;
    }
    PathKind::Plain
}

// The single name of an entry, by a rule.
fn single(db: &Snapshot, kind: PathKind, rule: StepRule, e: Option<usize>) -> Option<Choice>
    requires { EntryFits db.now.records.words.now db.now.records.layout e }
    ensures { (x : FindPathCtx) → given result ≡ single_of (snap_in db.now) x (path_kind_number kind) (rule_number rule)
        (entry_of scope_at db.now.records.words.now e) }
{
    let h = e?;
    let via = step_by(rule, h);
    Some(Choice::new(db, kind as usize, scope_name(db.records.words, h), via))
}

/// The item's entry in the viewing module, or around its blocks.
pub fn find_in_scope(db: &Snapshot, x: FindPathCtx, item: Item) -> Option<usize>
    requires { x.from.0 < db.now.records.layout.modules }
    ensures { (entry_of scope_at db.now.records.words.now result ≡ find_in_scope (snap_in db.now) x item)
        × EntryFits db.now.records.words.now db.now.records.layout result }
{
    scope_entry(db, x.from, item, x.ignore_local_imports, x.fresh)
}

/// Whether the scope is used: under ByCrate only the crate's root does.
pub fn may_be_in_scope(x: FindPathCtx) -> bool
    ensures { (s : lists.Snapshot) → result ≡ may_be_in_scope s x }
{
    (x.prefix != Prefix::ByCrate as usize) | (x.crate_root == x.from)
}

/// The item by its name in scope.
pub fn scope_rule(db: &Snapshot, x: FindPathCtx, item: Item) -> Option<Choice>
    requires { x.from.0 < db.now.records.layout.modules }
    ensures { given result ≡ scope_rule (snap_in db.now) x item }
{
    if !may_be_in_scope(x) {
        return None;
    }
    let e = find_in_scope(db, x, item);
    single(db, prefix_path_kind(x.prefix), StepRule::Scope, e)
}

// A prelude's entry, if visible and not another thing's name here.
fn prelude_entry(db: &Snapshot, x: FindPathCtx, item: Item, e: Option<usize>) -> Option<usize>
    requires { (x.from.0 < db.now.records.layout.modules)
        × ((h : ℕ) → e ≡ Some h → ScopeFits (counts_in db.now.records.layout) (scope_at db.now.records.words.now h)) }
    ensures { (entry_of scope_at db.now.records.words.now result ≡ prelude_entry (snap_in db.now) x item
        (entry_of scope_at db.now.records.words.now e)) × EntryFits db.now.records.words.now db.now.records.layout result }
{
    let h = e?;
    if is_usable(db, x, item, h) {
        return Some(h);
    }
    None
}

/// The item's first entry in the prelude, if visible and not another thing's name here; by options bit 32 the first such entry that isn't
/// deprecated, if there is one.
pub fn find_in_prelude(db: &Snapshot, x: FindPathCtx, item: Item) -> Option<usize>
    requires { x.from.0 < db.now.records.layout.modules }
    ensures { (entry_of scope_at db.now.records.words.now result ≡ find_in_prelude (snap_in db.now) x item)
        × EntryFits db.now.records.words.now db.now.records.layout result }
{
    let p = prelude_of(&db.records, map(db, x.from))?;
    let e = entry_by(
        db,
        x,
        prelude_target(db.records.words, p),
        item,
        Rule::Prelude,
    )
    .entry;
    prelude_entry(db, x, item, e)
}

/// The item by its name in the prelude.
pub fn prelude_rule(db: &Snapshot, x: FindPathCtx, item: Item) -> Option<Choice>
    requires { x.from.0 < db.now.records.layout.modules }
    ensures { given result ≡ prelude_rule (snap_in db.now) x item }
{
    let e = find_in_prelude(db, x, item);
    single(db, PathKind::Plain, StepRule::Prelude, e)
}

// The crate's root by its extern name, with `::` where the name is another thing's here.
fn extern_rule(db: &Snapshot, x: FindPathCtx, m: ModuleId, e: Option<usize>) -> Option<Choice>
    requires { (x.from.0 < db.now.records.layout.modules)
        × ((h : ℕ) → e ≡ Some h → ExternFits (counts_in db.now.records.layout) (extern_at db.now.records.words.now h)) }
    ensures { given result ≡ extern_name (snap_in db.now) x m.0 (entry_of extern_at db.now.records.words.now e) }
{
    let h = e?;
    let via = step_by(StepRule::Extern, h);
    let name = extern_name(db.records.words, h);
    if occupied(db, x.from, m, name) | x.prefer_absolute {
        return Some(Choice::new(db, PathKind::Absolute as usize, name, via));
    }
    Some(Choice::new(db, PathKind::Plain as usize, name, via))
}

/// A crate's root: `crate` in the viewer's crate or where no extern may be used, else its extern name.
// `maybe_extern: bool` is the parameter of the Rust's `find_path_for_module`.
pub fn root_rule(db: &Snapshot, x: FindPathCtx, maybe_extern: bool, m: ModuleId) -> Option<Choice>
    requires { (x.from.0 < db.now.records.layout.modules) × (m.0 < db.now.records.layout.modules) }
    ensures { given result ≡ root_rule (snap_in db.now) x maybe_extern m.0 }
{
    if crate_root(db, m) != m {
        return None;
    }
    if !maybe_extern | (m == x.crate_root) {
        return Some(keyword(PathKind::Crate as usize));
    }
    let e = extern_of(db, x.from_crate, m);
    extern_rule(db, x, m, e)
}

// The module as the parent of the viewer's.
fn parent_kind(db: &Snapshot, x: FindPathCtx, m: ModuleId) -> Option<PathKind>
    requires { (x.from.0 < db.now.records.layout.modules) × (m.0 < db.now.records.layout.modules) }
    ensures { option_map path_kind_number result ≡ parent_kind (snap_in db.now) x m.0
        (parent_of (snap_in db.now) x.from.0) }
{
    if parent(db, x.from)? != m {
        return None;
    }
    if m == root(db, map(db, x.from)) {
        return Some(PathKind::Crate);
    }
    Some(PathKind::Super)
}

/// The viewer's own module, or its parent, where neither is in a block.
pub fn is_kw_kind_relative_to_from(db: &Snapshot, x: FindPathCtx, m: ModuleId) -> Option<PathKind>
    requires { (x.from.0 < db.now.records.layout.modules) × (m.0 < db.now.records.layout.modules) }
    ensures { option_map path_kind_number result ≡ is_kw_kind_relative_to_from (snap_in db.now) x m.0 }
{
    let block = in_block(db, m) | in_block(db, x.from);
    if (krate(db, m) != krate(db, x.from)) | block {
        return None;
    }
    if m == x.from {
        return Some(PathKind::SelfModule);
    }
    parent_kind(db, x, m)
}

/// The module by a keyword; ByCrate takes none but `crate`.
pub fn keyword_rule(db: &Snapshot, x: FindPathCtx, m: ModuleId) -> Option<Choice>
    requires { (x.from.0 < db.now.records.layout.modules) × (m.0 < db.now.records.layout.modules) }
    ensures { given result ≡ keyword_of (snap_in db.now) x
        (is_kw_kind_relative_to_from (snap_in db.now) x m.0) }
{
    let kind = is_kw_kind_relative_to_from(db, x, m)?;
    if (x.prefix != Prefix::ByCrate as usize) | (kind == PathKind::Crate) {
        return Some(keyword(kind as usize));
    }
    None
}

/// The first of root, extern, scope, keyword and prelude that has a path to the module.
pub fn module_rules(
    db: &Snapshot,
    x: FindPathCtx,
    maybe_extern: bool,
    m: ModuleId,
) -> Option<Choice>
    requires { (x.from.0 < db.now.records.layout.modules) × (m.0 < db.now.records.layout.modules) }
    ensures { given result ≡ module_rules (snap_in db.now) x maybe_extern m.0 }
{
    // Early returns, as in the Rust.
    if let Some(c) = root_rule(db, x, maybe_extern, m) {
        return Some(c);
    }
    if let Some(c) = scope_rule(db, x, Item::Mod(m)) {
        return Some(c);
    }
    if let Some(c) = keyword_rule(db, x, m) {
        return Some(c);
    }
    prelude_rule(db, x, Item::Mod(m))
}
