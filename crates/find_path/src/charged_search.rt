//! The charged search: a cycle of calls in which the length left falls.

ghost use Rattle.std.specs.Prelude.{◌≡◌, [], ◌+◌, ◌≤◌, ◌<◌, ◌^◌};
ghost use Rattle.snapshot.specs.Ids.{plus_one};
ghost use Rattle.snapshot.specs.Origins.{origin_number};
ghost use Rattle.snapshot.specs.Limits.{path_limit};
ghost use Rattle.snapshot.specs.Records.{import_at};
ghost use Rattle.snapshot.specs.Laid.{snap_by};
ghost use Rattle.check_records.specs.record_rules.Stands.{counts_in};
ghost use Rattle.accept.specs.Valid.{ImportFits};
ghost use Rattle.accept.specs.Opened.{snap_in};
ghost use Rattle.hir_def.specs.crate_graph.Among.{among};
ghost use Rattle.hir_def.specs.ImportMap.{import_info_for, is_hidden};
ghost use Rattle.hir_def.specs.Finds.{select};
ghost use Rattle.find_path_choice.specs.Given.{given};
ghost use Rattle.find_path_spec.specs.Charged.{out_of, is_stable, is_at, langs, after_charge};
ghost use Rattle.find_path_spec.specs.Meters.{from_tank, go};
ghost use Rattle.find_path_spec.specs.Search.{best_local, search_module};
ghost use Rattle.find_path_spec.specs.declared.Tank.{Tank};
ghost use Rattle.find_path_spec.specs.Conditions.{Prepared, Asked, Searched};
ghost use Rattle.find_path.specs.charged_search.Parts.{modules, best_path, one_import, imports, dependencies, sysroot, in_lang, Begun, Held};

use crate::search_parts::{is_imported, is_stable, langs_for};
use accept::opened::Snapshot;
use find_path_choice::choices::length_left;
use find_path_local::calculate_best_path_local;
use find_path_local::path_offers::offer_import;
use find_path_rules::module_rules;
use find_path_rules::path_context::charge;
use find_path_spec::{FindPathCtx, Found, Tank};
use hir_def::Item;
use hir_def::crate_graph::{Which, lang_of, next_dependency};
use hir_def::import_map::{import_info_for, is_hidden};
use hir_def::items::home_of;
use module_tree::modules::krate;
use snapshot::ids::{Area, Crate, CrateOrigin, ModuleId};
use snapshot::record::{dependency_crate, import_container};
use snapshot::records::Records;

// The context, the length left and the item are parameters of their own, as in the Rust and in the definitions.

// Whether a home is in the crate.
fn is_at(db: &Snapshot, home: Option<ModuleId>, c: Crate) -> bool
    requires { plus_one home ≤ db.now.records.layout.modules }
    ensures { result ≡ is_at (snap_in db.now) (plus_one home) c.0 }
{
    let Some(m) = home else {
        return false;
    };
    krate(db, m) == c
}

/// The search for a module, where externs count: the rules, else the charged search. Length 0 finds no module.
#[cycle(charged)]
pub fn find_path_for_module(
    records: &Records,
    area: &mut Area,
    x: FindPathCtx,
    left: usize,
    m: ModuleId,
    t: Tank,
) -> Found
    requires { Prepared records.now.words.now area.old records.now.layout x × (m.0 < records.now.layout.modules) × (left ≤ path_limit)
        × (t.fuel + t.spent < 2 ^ 32) }
    ensures { Searched area.old (search_module Tank from_tank (snap_by records.now area.old) x left m.0 t)
        area.new result }
{
    if left == 0 {
        return Found {
            choice: None,
            meter: t,
        };
    }
    let db = Snapshot {
        records: *records,
        area,
    };
    if let Some(c) = module_rules(&db, x, true, m) {
        return Found {
            choice: Some(c),
            meter: t,
        };
    }
    calculate_best_path(records, area, x, left, Item::Mod(m), t)
}

/// The only rule that charges: the local search in the viewer's crate, else the sysroot for a std item, else the dependencies.
#[cycle(charged)]
pub fn calculate_best_path(
    records: &Records,
    area: &mut Area,
    x: FindPathCtx,
    left: usize,
    item: Item,
    t: Tank,
) -> Found
    requires { Begun records.now.words.now area.old records.now.layout x left × Asked records.now.layout item × (t.fuel + t.spent < 2 ^ 32) }
    ensures { Searched area.old (best_path (snap_by records.now area.old) x left item t)
        area.new result }
{
    match charge(x, left, item, t) {
        Err(meter) => Found {
            choice: None,
            meter,
        },
        Ok(meter) => search_charged(records, area, x, left, item, meter),
    }
}

// What follows a charge.
#[cycle(charged)]
fn search_charged(
    records: &Records,
    area: &mut Area,
    x: FindPathCtx,
    left: usize,
    item: Item,
    t: Tank,
) -> Found
    requires { Begun records.now.words.now area.old records.now.layout x left × Asked records.now.layout item × (t.fuel + t.spent < 2 ^ 32) }
    ensures { Searched area.old (after_charge Tank from_tank (snap_by records.now area.old) x
        (best_local (snap_by records.now area.old) x) (modules (snap_by records.now area.old) x)
        left item (go t)) area.new result }
{
    let home = home_of(records, item);
    let db = Snapshot {
        records: *records,
        area,
    };
    if is_at(&db, home, x.from_crate) {
        let choice = calculate_best_path_local(records, area, x, left, item);
        return Found { choice, meter: t };
    }
    let o = Found {
        choice: None,
        meter: t,
    };
    if x.is_std_item {
        return find_in_sysroot(records, area, x, left, item, o);
    }
    find_in_deps(records, area, x, left, item, Which::All, o)
}

// Core, alloc and std, until the choice is stable; then every dependency, those of the sysroot first.
#[cycle(charged)]
fn find_in_sysroot(
    records: &Records,
    area: &mut Area,
    x: FindPathCtx,
    left: usize,
    item: Item,
    o: Found,
) -> Found
    requires { Begun records.now.words.now area.old records.now.layout x left × Held left (out_of o) }
    ensures { Searched area.old (sysroot (snap_by records.now area.old) x left item (out_of o)
        (langs x.prefer_no_std) (is_stable (given o.choice))) area.new result }
{
    let langs = langs_for(x.prefer_no_std);
    let a = find_in_lang(records, area, x, left, item, langs.first, o);
    let b = find_in_lang(records, area, x, left, item, langs.second, a);
    let c = find_in_lang(records, area, x, left, item, langs.third, b);
    find_in_rest(records, area, x, left, item, c)
}

// The crate of one language in the sysroot, unless the choice is stable.
#[cycle(charged)]
fn find_in_lang(
    records: &Records,
    area: &mut Area,
    x: FindPathCtx,
    left: usize,
    item: Item,
    lang: CrateOrigin,
    o: Found,
) -> Found
    requires { Begun records.now.words.now area.old records.now.layout x left × Held left (out_of o) }
    ensures { Searched area.old (in_lang (snap_by records.now area.old) x left item
        (out_of o) (origin_number lang) (is_stable (given o.choice))) area.new result }
{
    if is_stable(o.choice) {
        return o;
    }
    let db = Snapshot {
        records: *records,
        area,
    };
    let Some(h) = lang_of(&db, x.from_crate, lang.number()) else {
        return o;
    };
    find_in_dep(
        records,
        area,
        x,
        left,
        item,
        dependency_crate(records.words, h),
        o,
    )
}

// Every dependency, those of the sysroot first, unless the choice is stable.
#[cycle(charged)]
fn find_in_rest(
    records: &Records,
    area: &mut Area,
    x: FindPathCtx,
    left: usize,
    item: Item,
    o: Found,
) -> Found
    requires { Begun records.now.words.now area.old records.now.layout x left × Held left (out_of o) }
    ensures { Searched area.old (sysroot (snap_by records.now area.old) x left item
        (out_of o) [] (is_stable (given o.choice))) area.new result }
{
    if is_stable(o.choice) {
        return o;
    }
    let a = find_in_deps(records, area, x, left, item, Which::Sysroot, o);
    find_in_deps(records, area, x, left, item, Which::Others, a)
}

// The dependencies of one sort, in record order. Those that don't import the item are passed over: what was found is carried by value.
// `loop`: each turn looks for the next one after the last, in the snapshot as it then is.
#[cycle(charged)]
fn find_in_deps(
    records: &Records,
    area: &mut Area,
    x: FindPathCtx,
    left: usize,
    item: Item,
    which: Which,
    o: Found,
) -> Found
    requires { Begun records.now.words.now area.old records.now.layout x left × Held left (out_of o) }
    ensures { Searched area.old (dependencies (snap_by records.now area.old) x left item
        (out_of o) (select (among x.from_crate.0 which) (snap_by records.now area.old).dependencies)) area.new result }
{
    let mut best = o;
    let mut k = 0;
    loop {
        let db = Snapshot {
            records: *records,
            area,
        };
        let Some(next) = next_dependency(&db, k, x.from_crate, which) else {
            return best;
        };
        k = next.number + 1;
        let c = dependency_crate(records.words, next.head);
        if !is_imported(&db, c, item) {
            continue;
        }
        best = find_in_dep(records, area, x, left, item, c, best);
    }
}

// The imports of the item in a crate.
// `loop`, as in `find_in_deps`.
// The loop of `find_in_deps` over other records; its step is a call of the cycle, and a closure for it would have the clause of that call.
#[cycle(charged)]
fn find_in_dep(
    records: &Records,
    area: &mut Area,
    x: FindPathCtx,
    left: usize,
    item: Item,
    c: Crate,
    o: Found,
) -> Found
    requires { Begun records.now.words.now area.old records.now.layout x left × Held left (out_of o) }
    ensures { Searched area.old (imports (snap_by records.now area.old) x left (out_of o)
        (import_info_for (snap_by records.now area.old) c.0 item)) area.new result }
{
    let mut best = o;
    let mut k = 0;
    loop {
        let db = Snapshot {
            records: *records,
            area,
        };
        let Some(next) = import_info_for(&db, k, c, item) else {
            return best;
        };
        best = find_import(records, area, x, left, next.head, best);
        k = next.number + 1;
    }
}

// One import, unless it is hidden: the best path of its container is offered with its name. An unstable one is searched for,
// and charged, even where it is not allowed.
#[cycle(charged)]
fn find_import(
    records: &Records,
    area: &mut Area,
    x: FindPathCtx,
    left: usize,
    h: usize,
    o: Found,
) -> Found
    requires { Begun records.now.words.now area.old records.now.layout x left
        × ((import_at records.now.words.now h).container < records.now.layout.modules)
        × ImportFits (counts_in records.now.layout) (import_at records.now.words.now h) × Held left (out_of o) }
    ensures { Searched area.old (one_import (snap_by records.now area.old) x left (out_of o)
        (import_at records.now.words.now h) (is_hidden (import_at records.now.words.now h))) area.new result }
{
    if is_hidden(records.words, h) {
        return o;
    }
    let n = length_left(left, o.choice);
    let m = import_container(records.words, h);
    let r = find_path_for_module(records, area, x, n, m, o.meter);
    let db = Snapshot {
        records: *records,
        area,
    };
    let choice = offer_import(&db, x, o.choice, r.choice, h);
    Found {
        choice,
        meter: r.meter,
    }
}
