//! The local search, which is never charged: what a step offers, how far an answer is, answers that are kept, and the search.
//! Uses the rules and what is kept in the work area.
#![tactic(auto)]

ghost use Rattle.std.specs.Prelude.{◌≡◌, false, ◌-◌, ◌≤◌, ◌<◌, ◌^◌};
ghost use Rattle.snapshot.specs.Limits.{path_limit};
ghost use Rattle.snapshot.specs.Laid.{snap_by};
ghost use Rattle.accept.specs.Opened.{snap_in};
ghost use Rattle.find_path_choice.specs.Given.{given};
ghost use Rattle.find_path_spec.specs.Rules.{module_rules};
ghost use Rattle.find_path_spec.specs.Local.{importable_name, location as location_of, calculate_best_path_local};
ghost use Rattle.find_path_spec.specs.Search.{search_local, best_local};
ghost use Rattle.find_path_spec.specs.Conditions.{Prepared, Asked, Chosen};
ghost use Rattle.find_path_local.specs.distances.Distances.{distance, Bounds};
ghost use Rattle.find_path_levels.specs.Levels.{levels_of};
ghost use Rattle.find_path_local.specs.tight_rows.Post.{Tight};
ghost use Rattle.find_path_local.specs.Post.{Searchable, Answered};

pub mod distances;
pub mod near;
pub mod path_offers;
pub mod tight_rows;

use crate::distances::{Distances, mark_rules, set_distances};
use crate::near::{is_lost, note};
use crate::path_offers::{importable_name, is_named, offer_entry};
use crate::tight_rows::{Rows, clear_rows, from_row, is_tight, row_of, row_place};
use accept::opened::Snapshot;
use find_path_choice::Choice;
use find_path_choice::choices::length_left;
use find_path_levels::levels::code_of;
use find_path_levels::walk_once::{Walk, locations, take_walk};
use find_path_levels::{Sought, Stack};
use find_path_rules::module_rules;
use find_path_spec::FindPathCtx;
use hir_def::Item;
use snapshot::ids::{Area, ModuleId};
use snapshot::reading::word;
use snapshot::record::scope_owner;
use snapshot::records::Records;

// The context, the length left and the item are parameters of their own, as in the Rust and in the definitions.

// One module of the run: its path with the item's name there, against the choice so far, unless the module is too far.
#[cycle(find_path_for_module_local_local_at_location_tight_at)]
fn location(
    records: &Records,
    area: &mut [u32],
    x: FindPathCtx,
    left: usize,
    best: Option<Choice>,
    sought: Sought,
    m: ModuleId,
    s: Stack,
) -> Option<Choice>
    requires { (0 < left) × Searchable records.now.words.now area.old records.now.layout x (left - 1) s × (m.0 < records.now.layout.modules)
        × ((given best).count < 2 ^ 32) }
    ensures { Answered records.now.words.now area.old records.now.layout x s.top
        (location_of (snap_by records.now area.old) x (search_local (snap_by records.now area.old) x)
        left (levels_of area.old s.place s.depth) (given best) m.0
        (importable_name (snap_by records.now area.old) x sought.item m.0)) area.new result }
{
    let j = length_left(left, best);
    if j < word(area, Distances::AT + m.0) {
        return best;
    }
    let db = Snapshot {
        records: *records,
        area,
    };
    let Some(h) = importable_name(&db, x, sought.item, m) else {
        return best;
    };
    let c = find_path_for_module_local(records, area, x, j, m, s);
    let db = Snapshot {
        records: *records,
        area,
    };
    offer_entry(&db, x, best, c, h)
}

// The rules' answer for a module, if it has one: a module with a number above 1 has none.
fn rules_at(db: &Snapshot, x: FindPathCtx, m: ModuleId) -> Option<Choice>
    requires { (x.from.0 < db.now.records.layout.modules) × (m.0 < db.now.records.layout.modules)
        × Bounds (snap_in db.now) x db.now.records.layout.modules (distance db.now.area.now) }
    ensures { given result ≡ module_rules (snap_in db.now) x false m.0 }
{
    if 1 < word(db.area, Distances::AT + m.0) {
        return None;
    }
    module_rules(db, x, false, m)
}

// The module search without externs.
#[cycle(find_path_for_module_local_local_at_location_tight_at)]
fn find_path_for_module_local(
    records: &Records,
    area: &mut [u32],
    x: FindPathCtx,
    left: usize,
    m: ModuleId,
    s: Stack,
) -> Option<Choice>
    requires { Searchable records.now.words.now area.old records.now.layout x left s × (m.0 < records.now.layout.modules) }
    ensures { Answered records.now.words.now area.old records.now.layout x s.top
        (search_local (snap_by records.now area.old) x left (levels_of area.old s.place s.depth) m.0)
        area.new result }
{
    if left == 0 {
        return None;
    }
    let db = Snapshot {
        records: *records,
        area,
    };
    // An early return, as in the Rust.
    if let Some(c) = rules_at(&db, x, m) {
        return Some(c);
    }
    if is_tight(area, s, left, m) {
        return tight_at(records, area, x, left, m, s);
    }
    if is_lost(records, area, x, left, m, s) {
        return None;
    }
    let sought = Sought { item: Item::Mod(m) };
    let r = local_at(records, area, x, left, sought, s);
    note(area, s.top, r);
    r
}

// A search for a module whose answer does not depend on the levels: it is done once and kept as a row, by which it is rebuilt.
#[cycle(find_path_for_module_local_local_at_location_tight_at)]
fn tight_at(
    records: &Records,
    area: &mut [u32],
    x: FindPathCtx,
    left: usize,
    m: ModuleId,
    s: Stack,
) -> Option<Choice>
    requires { (0 < left) × Searchable records.now.words.now area.old records.now.layout x left s × (m.0 < records.now.layout.modules)
        × Tight area.old s left m.0
        × ((module_rules (snap_by records.now area.old) x false m.0).found ≡ false) }
    ensures { Answered records.now.words.now area.old records.now.layout x s.top
        (search_local (snap_by records.now area.old) x left (levels_of area.old s.place s.depth) m.0)
        area.new result }
{
    let row = word(area, Rows::AT + m.0);
    if row == 0 {
        let sought = Sought { item: Item::Mod(m) };
        let r = local_at(records, area, x, left, sought, s);
        let made = row_of(r);
        area[Rows::AT + m.0] = made as u32;
        return r;
    }
    if row == 1 {
        return None;
    }
    let owner = scope_owner(records.words, row_place(row));
    let c = find_path_for_module_local(records, area, x, left - 1, owner, s)?;
    let db = Snapshot {
        records: *records,
        area,
    };
    Some(from_row(&db, c, row))
}

// A local search: it opens a level at the top, gathers its run, and searches for each module of it one level up.
#[cycle(find_path_for_module_local_local_at_location_tight_at)]
fn local_at(
    records: &Records,
    area: &mut [u32],
    x: FindPathCtx,
    left: usize,
    sought: Sought,
    s: Stack,
) -> Option<Choice>
    requires { (0 < left) × Searchable records.now.words.now area.old records.now.layout x left s }
    ensures { Answered records.now.words.now area.old records.now.layout x s.top
        (calculate_best_path_local (snap_by records.now area.old) x
        (search_local (snap_by records.now area.old) x) left (levels_of area.old s.place s.depth) sought.item)
        area.new result }
{
    // Nothing is left for the path of a module.
    if left == 1 {
        return None;
    }
    let top = s.top;
    let base = top + 3;
    let code = code_of(sought);
    area[top] = code as u32;
    area[top + 1] = s.place as u32;
    let here = Stack {
        top: base,
        place: s.place,
        depth: s.depth,
    };
    let n = locations(records, area, x.from, here, sought);
    let up = Stack {
        top: base + n,
        place: base,
        depth: s.depth + 1,
    };
    let mut best = None;
    for k in 0..n {
        let cursor = s.top + 2;
        area[cursor] = k as u32;
        let m = word(area, base + k);
        best = location(records, area, x, left, best, sought, ModuleId(m), up);
    }
    best
}

/// `calculate_best_path_local`: the best path to the item through the modules of the viewer's crate. Words after the tables are
/// used as scratch.
pub fn calculate_best_path_local(
    records: &Records,
    area: &mut Area,
    x: FindPathCtx,
    left: usize,
    item: Item,
) -> Option<Choice>
    requires { Prepared records.now.words.now area.old records.now.layout x × Asked records.now.layout item × (0 < left) × (left ≤ path_limit) }
    ensures { Chosen area.old (best_local (snap_by records.now area.old) x left item) area.new result }
{
    let db = Snapshot {
        records: *records,
        area,
    };
    if !is_named(&db, x, item) {
        return None;
    }
    let sought = Sought { item };
    mark_rules(records, area, x);
    take_walk(records, area, x.from, sought);
    set_distances(records, area, x);
    clear_rows(area, records.layout.modules);
    let none = Stack {
        top: Walk::END,
        place: 0,
        depth: 0,
    };
    local_at(records, area, x, left, sought, none)
}
