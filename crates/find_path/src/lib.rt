//! The charged search, `find_path_inner` and `find_path`.
//! Uses the rules and the local search.
#![tactic(auto)]

ghost use Rattle.std.specs.Prelude.{◌≡◌, List, [], ◌∷◌, ℕ, ◌+◌, ◌≤◌, ◌<◌, ◌^◌, length};
ghost use Rattle.snapshot.specs.Limits.{word_limit, path_limit, fuel_limit, area_limit, namespace_limit};
ghost use Rattle.snapshot.specs.Records.{definition_at};
ghost use Rattle.snapshot.specs.Laid.{snap_by};
ghost use Rattle.accept.specs.Post.{Reads};
ghost use Rattle.accept.specs.Opened.{snap_in};
ghost use Rattle.hir_def.specs.Items.{definition_of};
ghost use Rattle.hir_def.specs.Entries.{entry_of};
ghost use Rattle.find_path_choice.specs.Choices.{via_variant, step_by, push as push_of};
ghost use Rattle.find_path_choice.specs.Given.{chosen, given};
ghost use Rattle.find_path_spec.specs.Rules.{first_found, scope_rule, prelude_rule};
ghost use Rattle.find_path_spec.specs.Charged.{variant_of};
ghost use Rattle.find_path_spec.specs.Meters.{from_tank};
ghost use Rattle.find_path_spec.specs.Search.{builtin_choice, search_item};
ghost use Rattle.find_path_spec.specs.Report.{searched};
ghost use Rattle.find_path_spec.specs.Conditions.{Prepared, Asked, Searched};
ghost use Rattle.find_path_spec.specs.declared.Tank.{Tank};
ghost use Rattle.find_path.specs.Parts.{names};

pub mod charged_search;
pub mod search_parts;

use crate::charged_search::{calculate_best_path, find_path_for_module};
use crate::search_parts::straight_of;
use accept::opened::Snapshot;
use find_path_choice::Choice;
use find_path_choice::choices::{StepRule, step_by};
use find_path_rules::path_context::{context, module_in};
use find_path_rules::{prelude_rule, scope_rule};
use find_path_spec::{FindPathCtx, Found, Query, Tank};
use hir_def::Item;
use hir_def::items::{definition_head, home_of, item_of, known_kind_of};
use snapshot::ids::{Area, DefinitionId, DefinitionKind, Name, Namespace, PathKind};
use snapshot::record::{definition_first, definition_second, known_definition_kind};
use snapshot::records::Records;

// The item's name in scope, else in the prelude.
// An early return, as in the Rust.
fn named(db: &Snapshot, x: FindPathCtx, item: Item) -> Option<Choice>
    requires { x.from.0 < db.now.records.layout.modules }
    ensures { given result ≡ first_found (scope_rule (snap_in db.now) x item ∷ prelude_rule
        (snap_in db.now) x item ∷ []) }
{
    if let Some(c) = scope_rule(db, x, item) {
        return Some(c);
    }
    prelude_rule(db, x, item)
}

// The place of the item's definition, if it is a variant.
fn variant_of(records: &Records, item: Item) -> Option<usize>
    ensures { (A : List ℕ) → entry_of definition_at records.now.words.now result ≡ variant_of (snap_by records.now A) item }
{
    let Item::Def(_, d) = item else {
        return None;
    };
    let h = definition_head(records, d);
    if known_definition_kind(records.words, h) == Some(DefinitionKind::Variant) {
        return Some(h);
    }
    None
}

// A variant's name, with its definition at a place, after the path of its enum.
fn push_variant(db: &Snapshot, c: Choice, n: Name, h: usize) -> Choice
    requires { (n.0 < db.now.records.layout.names) × (c.count < 16) × (c.path_text_len < 2 ^ 32) × (c.steps < 17) × (h < word_limit) }
    ensures { chosen result ≡ push_of (snap_in db.now) (chosen c) n.0 (step_by via_variant h) }
{
    let via = step_by(StepRule::Variant, h);
    c.push(db, n, via)
}

// The name of a builtin.
fn builtin_choice(db: &Snapshot, d: DefinitionId) -> Choice
    requires { (d.0 < db.now.records.layout.definitions) × ((definition_of (snap_in db.now) d.0).kind ≡ 3) }
    ensures { chosen result ≡ builtin_choice (snap_in db.now)
        (definition_of (snap_in db.now) d.0) }
{
    let h = definition_head(&db.records, d);
    let via = step_by(StepRule::Builtin, h);
    let name = Name(definition_first(db.records.words, h));
    Choice::new(db, PathKind::Plain as usize, name, via)
}

/// The search for an item: a module goes straight to the module search, unless it is std's.
#[cycle(find_by_name_find_path_inner)]
pub fn find_path_inner(
    records: &Records,
    area: &mut Area,
    x: FindPathCtx,
    item: Item,
    t: Tank,
) -> Found
    requires { Prepared records.now.words.now area.old records.now.layout x × Asked records.now.layout item × (t.fuel + t.spent < 2 ^ 32) }
    ensures { Searched area.old (search_item Tank from_tank (snap_by records.now area.old) x item t)
        area.new result }
{
    let Some(m) = straight_of(x.is_std_item, item) else {
        return find_by_name(records, area, x, item, t);
    };
    find_path_for_module(records, area, x, x.max_len, m, t)
}

// The scope and the prelude, then the enum of a variant, then the charged search, with the tank that the enum left.
#[cycle(find_by_name_find_path_inner)]
fn find_by_name(records: &Records, area: &mut Area, x: FindPathCtx, item: Item, t: Tank) -> Found
    requires { Prepared records.now.words.now area.old records.now.layout x × Asked records.now.layout item × (t.fuel + t.spent < 2 ^ 32) }
    ensures { Searched area.old (names (snap_by records.now area.old) x item t) area.new result }
{
    let db = Snapshot {
        records: *records,
        area,
    };
    if let Some(c) = named(&db, x, item) {
        return Found {
            choice: Some(c),
            meter: t,
        };
    }
    let Some(h) = variant_of(records, item) else {
        return calculate_best_path(records, area, x, x.max_len, item, t);
    };
    let parent = item_of(
        records,
        Namespace::TYPES,
        DefinitionId(definition_first(records.words, h)),
    );
    let o = find_path_inner(records, area, x, parent, t);
    let Some(best) = o.choice else {
        return calculate_best_path(records, area, x, x.max_len, item, o.meter);
    };
    let db = Snapshot {
        records: *records,
        area,
    };
    let c = push_variant(&db, best, Name(definition_second(records.words, h)), h);
    Found {
        choice: Some(c),
        meter: o.meter,
    }
}

/// The search for the item of a question with a full tank, for a limit in range.
pub fn find_path(records: &Records, area: &mut Area, q: Query, fuel: usize) -> Found
    requires { Reads records.now.words.now area.old records.now.layout × (q.definition.0 < records.now.layout.definitions)
        × (q.from.0 < records.now.layout.modules) × (q.ns ≤ namespace_limit) × (fuel ≤ fuel_limit) × (0 < q.limit) × (q.limit ≤ path_limit) }
    ensures { Searched area.old (searched (snap_by records.now area.old) q fuel) area.new result }
{
    let meter = Tank {
        fuel: fuel,
        spent: 0,
        empty: false,
        left: 0,
        sought: 0,
    };
    if (q.ns == Namespace::TYPES)
        & (known_kind_of(records, q.definition) == Some(DefinitionKind::Builtin))
    {
        let db = Snapshot {
            records: *records,
            area,
        };
        let choice = Some(builtin_choice(&db, q.definition));
        return Found { choice, meter };
    }
    let item = item_of(records, q.ns, q.definition);
    let Some(home) = home_of(records, item) else {
        return Found {
            choice: None,
            meter,
        };
    };
    let own = module_in(item);
    let db = Snapshot {
        records: *records,
        area,
    };
    let x = context(&db, q, home, own);
    find_path_inner(records, area, x, item, meter)
}
