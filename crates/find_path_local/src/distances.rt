//! Numbers of modules, in the work area past the tables: with less than its number left, no local search finds a module. They are lower
//! bounds of the steps to an answer of the rules, taken over all entries that the viewer can use.

ghost use Rattle.std.specs.Prelude.{◌≡◌, true, ℕ, ◌^◌, ◌≤◌, ◌<◌};
ghost use Rattle.std.specs.Prelude.{Some};
ghost use Rattle.snapshot.specs.Limits.{module_limit};
ghost use Rattle.snapshot.specs.Records.{Prelude, scope_at};
ghost use Rattle.snapshot.specs.Laid.{snap_by};
ghost use Rattle.check_records.specs.record_rules.Stands.{counts_in};
ghost use Rattle.accept.specs.Valid.{Each, ScopeFits};
ghost use Rattle.hir_def.specs.Items.{map_no};
ghost use Rattle.hir_def.specs.ItemScope.{entry_module};
ghost use Rattle.hir_def.specs.Nameres.{ancestor_maps, prelude_of};
ghost use Rattle.find_path_local.specs.distances.Distances.{distance, Named, Relaxed, Opened, Tried, is_keyword, walk};
ghost use Rattle.find_path_levels.specs.walk_once.Walked.{Walked};
ghost use Rattle.find_path_local.specs.distances.Post.{Ready, Cleared, Rooted, Marked, Lowers, Steps, Turned, Round, Bounded, Sifted};

use crate::path_offers::importable_name;
use accept::opened::Snapshot;
use find_path_levels::walk_once::Walk;
use find_path_rules::rule_lookups::is_importable;
use find_path_rules::{keyword_rule, may_be_in_scope, module_rules};
use find_path_spec::FindPathCtx;
use hir_def::Item;
use hir_def::crate_graph::prelude_of;
use hir_def::item_scope::modules_in_scope;
use hir_def::items::first_of;
use module_tree::modules::{block, map, own, parent, root};
use snapshot::ids::{Area, Crate, ModuleId};
use snapshot::reading::word;
use snapshot::record::{prelude_target, scope_definition, scope_owner};
use snapshot::records::Records;
use snapshot::table::Tables;

/// Where the numbers stand, a word a module.
#[derive(Clone, Copy)]
pub struct Distances;

impl Distances {
    pub const AT: usize = Tables::END;

    pub const END: usize = 7616;

    /// The number of a module that no length reaches.
    pub const FAR: usize = 16;
}

// Every module is far.
// The area is passed whole, since the clause says that its other words stay.
fn clear_numbers(area: &mut Area, count: usize)
    requires { count ≤ module_limit }
    ensures { Cleared area.old count area.new }
{
    area[Distances::AT..Distances::AT + count].fill(Distances::FAR as u32);
}

// A module that a rule may answer for.
fn mark(area: &mut Area, m: ModuleId)
    requires { m.0 < module_limit }
    ensures { Lowers area.old area.new × (distance area.new m.0 ≤ 1) }
{
    let at = Distances::AT + m.0;
    if word(area, at) <= 1 {
        return;
    }
    area[at] = 1;
}

// The roots of crates.
fn mark_roots(records: &Records, area: &mut Area)
    requires { Ready records.now.words.now area.old records.now.layout }
    ensures { Lowers area.old area.new × Rooted (snap_by records.now area.old) records.now.layout area.new }
{
    for c in 0..records.layout.crates {
        let db = Snapshot {
            records: *records,
            area,
        };
        let r = root(&db, own(&db, Crate(c)));
        mark(area, r);
    }
}

// The modules of the entries of c.
// `loop`: each turn looks for the next entry after the last, in the snapshot as it then is.
fn mark_scope(records: &Records, area: &mut Area, c: ModuleId)
    requires { Ready records.now.words.now area.old records.now.layout }
    ensures { Lowers area.old area.new
        × Each (Named (snap_by records.now area.old) (distance area.new) c.0)
        (snap_by records.now area.old).scopes }
{
    let mut k = 0;
    loop {
        let db = Snapshot {
            records: *records,
            area,
        };
        let Some(next) = modules_in_scope(&db, k, c) else {
            return;
        };
        let m = first_of(records, scope_definition(records.words, next.head));
        mark(area, ModuleId(m));
        k = next.number + 1;
    }
}

// The modules in the scope of the viewing module and around its blocks.
// `loop`: it climbs out of blocks, and ends where there is none around.
fn mark_scopes(records: &Records, area: &mut Area, from: ModuleId)
    requires { Ready records.now.words.now area.old records.now.layout × (from.0 < records.now.layout.modules) }
    ensures { Lowers area.old area.new
        × Each (λ a. Each (Named (snap_by records.now area.old) (distance area.new) a)
        (snap_by records.now area.old).scopes) (ancestor_maps (snap_by records.now area.old) from.0) }
{
    let mut m = from;
    loop {
        mark_scope(records, area, m);
        let db = Snapshot {
            records: *records,
            area,
        };
        let Some(b) = block(&db, m) else {
            return;
        };
        m = b;
    }
}

// The modules in the prelude of the viewing module.
fn mark_prelude(records: &Records, area: &mut Area, from: ModuleId)
    requires { Ready records.now.words.now area.old records.now.layout × (from.0 < records.now.layout.modules) }
    ensures { Lowers area.old area.new
        × ((p : Prelude) → prelude_of (snap_by records.now area.old)
        (map_no (snap_by records.now area.old) from.0) ≡ Some p
        → Each (Named (snap_by records.now area.old) (distance area.new) p.target)
        (snap_by records.now area.old).scopes) }
{
    let db = Snapshot {
        records: *records,
        area,
    };
    let p = prelude_of(records, map(&db, from));
    let Some(h) = p else {
        return;
    };
    mark_scope(records, area, prelude_target(records.words, h));
}

// A module, if it has a keyword.
fn mark_keyword(records: &Records, area: &mut Area, x: FindPathCtx, m: ModuleId)
    requires { Ready records.now.words.now area.old records.now.layout × (x.from.0 < records.now.layout.modules)
        × (m.0 < records.now.layout.modules) }
    ensures { Lowers area.old area.new
        × (is_keyword (snap_by records.now area.old) x m.0 ≡ true → distance area.new m.0 ≤ 1) }
{
    let db = Snapshot {
        records: *records,
        area,
    };
    if keyword_rule(&db, x, m).is_some() {
        mark(area, m);
    }
}

// The viewing module and its parent.
fn mark_keywords(records: &Records, area: &mut Area, x: FindPathCtx)
    requires { Ready records.now.words.now area.old records.now.layout × (x.from.0 < records.now.layout.modules) }
    ensures { Lowers area.old area.new
        × ((m : ℕ) → is_keyword (snap_by records.now area.old) x m ≡ true → distance area.new m ≤ 1) }
{
    mark_keyword(records, area, x, x.from);
    let db = Snapshot {
        records: *records,
        area,
    };
    let Some(p) = parent(&db, x.from) else {
        return;
    };
    mark_keyword(records, area, x, p);
}

// The step of an entry for a module, to the number d at most, if the viewer can import it; whether it made a number smaller.
// `tried` has a word a module: the module +1 from which the lookup failed last, 0 for none.
fn relax_entry(
    records: &Records,
    area: &mut Area,
    tried: &mut [u32; ModuleId::LIMIT],
    x: FindPathCtx,
    h: usize,
    d: usize,
) -> bool
    requires { Ready records.now.words.now area.old records.now.layout × (x.from.0 < records.now.layout.modules)
        × ScopeFits (counts_in records.now.layout) (scope_at records.now.words.now h)
        × (entry_module (snap_by records.now area.old) (scope_at records.now.words.now h) < records.now.layout.modules) × (0 < d) × (d < 2 ^ 32)
        × Tried (snap_by records.now area.old) x tried.old }
    ensures steps { Steps area.old d area.new result
        × Relaxed (snap_by records.now area.old) x (distance area.new) d (scope_at records.now.words.now h) }
    ensures misses { Tried (snap_by records.now area.old) x tried.new }
{
    let m = first_of(records, scope_definition(records.words, h));
    let at = Distances::AT + m;
    if word(area, at) <= d {
        return false;
    }
    let db = Snapshot {
        records: *records,
        area,
    };
    // The entry that the lookup gives is one that the viewer can import, so nothing is looked up for another.
    if !is_importable(&db, x, h) {
        return false;
    }
    let owner = scope_owner(records.words, h);
    // Where the lookup failed for an entry of this owner before, it is not done again.
    let mark = owner.0 as u32 + 1;
    if tried[m] == mark {
        return false;
    }
    let Some(_) = importable_name(&db, x, Item::Mod(ModuleId(m)), owner) else {
        tried[m] = mark;
        return false;
    };
    area[at] = d as u32;
    true
}

// The steps of the entries of m, to the number d at most; whether one made a number smaller.
// `loop`, as in `mark_scope`.
fn relax_scope(
    records: &Records,
    area: &mut Area,
    tried: &mut [u32; ModuleId::LIMIT],
    x: FindPathCtx,
    m: ModuleId,
    d: usize,
) -> bool
    requires { Ready records.now.words.now area.old records.now.layout × (x.from.0 < records.now.layout.modules) × (0 < d) × (d < 2 ^ 32)
        × Tried (snap_by records.now area.old) x tried.old }
    ensures steps { Steps area.old d area.new result
        × Each (Opened (snap_by records.now area.old) x (distance area.new) m.0 d) (snap_by records.now area.old).scopes }
    ensures misses { Tried (snap_by records.now area.old) x tried.new }
{
    let mut changed = false;
    let mut k = 0;
    loop {
        let db = Snapshot {
            records: *records,
            area,
        };
        let Some(next) = modules_in_scope(&db, k, m) else {
            return changed;
        };
        let r = relax_entry(records, area, tried, x, next.head, d);
        changed = changed | r;
        k = next.number + 1;
    }
}

// The steps from m, where its number is d; whether there is more to do than for the numbers up to d.
fn relax_at(
    records: &Records,
    area: &mut Area,
    tried: &mut [u32; ModuleId::LIMIT],
    x: FindPathCtx,
    m: ModuleId,
    d: usize,
) -> bool
    requires { Ready records.now.words.now area.old records.now.layout × (x.from.0 < records.now.layout.modules)
        × (m.0 < records.now.layout.modules) × (d < 16) × Tried (snap_by records.now area.old) x tried.old }
    ensures turned { Turned (snap_by records.now area.old) x area.old m.0 d area.new result }
    ensures misses { Tried (snap_by records.now area.old) x tried.new }
{
    let w = word(area, Distances::AT + m.0);
    if w == d {
        return relax_scope(records, area, tried, x, m, d + 1);
    }
    (d < w) & (w < Distances::FAR)
}

// The steps from the modules of the walk with the number d; whether there is more to do.
fn relax(
    records: &Records,
    area: &mut Area,
    tried: &mut [u32; ModuleId::LIMIT],
    x: FindPathCtx,
    d: usize,
) -> bool
    requires { Ready records.now.words.now area.old records.now.layout × (x.from.0 < records.now.layout.modules) × (d < 16)
        × Walked (snap_by records.now area.old) x.from.0 area.old × Tried (snap_by records.now area.old) x tried.old }
    ensures round { Round (snap_by records.now area.old) x area.old (walk (snap_by records.now area.old) x) d area.new result }
    ensures misses { Tried (snap_by records.now area.old) x tried.new }
{
    let mut more = false;
    for k in 0..word(area, Walk::COUNT) {
        let m = ModuleId(word(area, Walk::AT + k));
        let r = relax_at(records, area, tried, x, m, d);
        more = more | r;
    }
    more
}

/// Marks the modules that a rule may answer for.
pub fn mark_rules(records: &Records, area: &mut Area, x: FindPathCtx)
    requires { Ready records.now.words.now area.old records.now.layout × (x.from.0 < records.now.layout.modules) }
    ensures { Marked records.now.words.now area.old records.now.layout x area.new }
{
    clear_numbers(area, records.layout.modules);
    mark_roots(records, area);
    mark_keywords(records, area, x);
    mark_prelude(records, area, x.from);
    if !may_be_in_scope(x) {
        return;
    }
    mark_scopes(records, area, x.from);
}

// A module that is marked and that no rule answers for is far.
fn sift_at(records: &Records, area: &mut Area, x: FindPathCtx, m: ModuleId)
    requires { Ready records.now.words.now area.old records.now.layout × (x.from.0 < records.now.layout.modules)
        × (m.0 < records.now.layout.modules) }
    ensures { Sifted records.now.words.now area.old records.now.layout x area.new }
{
    let at = Distances::AT + m.0;
    if 1 < word(area, at) {
        return;
    }
    let db = Snapshot {
        records: *records,
        area,
    };
    if module_rules(&db, x, false, m).is_some() {
        return;
    }
    area[at] = Distances::FAR as u32;
}

// Those of the walk that no rule answers for are far again.
fn sift(records: &Records, area: &mut Area, x: FindPathCtx)
    requires { Ready records.now.words.now area.old records.now.layout × (x.from.0 < records.now.layout.modules)
        × Walked (snap_by records.now area.old) x.from.0 area.old }
    ensures { Sifted records.now.words.now area.old records.now.layout x area.new }
{
    let n = word(area, Walk::COUNT);
    for k in 0..n {
        let m = ModuleId(word(area, Walk::AT + k));
        sift_at(records, area, x, m);
    }
}

/// Sets the numbers of all modules, where those that a rule may answer for are marked and the walk is taken.
pub fn set_distances(records: &Records, area: &mut Area, x: FindPathCtx)
    requires { Ready records.now.words.now area.old records.now.layout × (x.from.0 < records.now.layout.modules)
        × Marked records.now.words.now area.old records.now.layout x area.old × Walked (snap_by records.now area.old) x.from.0 area.old }
    ensures { Bounded records.now.words.now area.old records.now.layout x area.new }
{
    sift(records, area, x);
    let mut tried = [0u32; ModuleId::LIMIT];
    for d in 1..Distances::FAR - 1 {
        if !relax(records, area, &mut tried, x, d) {
            return;
        }
    }
}
