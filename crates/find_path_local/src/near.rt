//! Whether an answer can be come to under the levels: numbers of modules as in `distances`, by walks past what the levels have taken. They stand
//! at the top, for one test.

ghost use Rattle.std.specs.Prelude.{◌≡◌, true, false, ℕ, ◌+◌, ◌-◌, ◌≤◌, ◌<◌, ◌^◌, length};
ghost use Rattle.snapshot.specs.Limits.{module_limit, area_limit};
ghost use Rattle.snapshot.specs.Records.{scope_at};
ghost use Rattle.snapshot.specs.Laid.{snap_by};
ghost use Rattle.check_records.specs.record_rules.Stands.{counts_in};
ghost use Rattle.accept.specs.Valid.{Each, ScopeFits};
ghost use Rattle.hir_def.specs.ItemScope.{entry_module};
ghost use Rattle.find_path_spec.specs.Walk.{has};
ghost use Rattle.find_path_spec.specs.Search.{search_local};
ghost use Rattle.find_path_spec.specs.laws.Near.{locations, near};
ghost use Rattle.find_path_choice.specs.Choices.{nothing};
ghost use Rattle.find_path_levels.specs.Levels.{levels_of};
ghost use Rattle.find_path_levels.specs.walk_once.Walked.{walk_end};
ghost use Rattle.find_path_local.specs.tight_rows.Rows.{rows_at};
ghost use Rattle.find_path_local.specs.Post.{Searchable};
ghost use Rattle.find_path_local.specs.distances.Distances.{distance, walk};
ghost use Rattle.find_path_local.specs.near.Numbers.{failures_at, number, Relaxed, Opened};
ghost use Rattle.find_path_local.specs.near.Post.{Scratched, Begun, Falls, Turned};

use crate::distances::Distances;
use crate::path_offers::importable_name;
use accept::opened::Snapshot;
use find_path_choice::Choice;
use find_path_levels::levels::has;
use find_path_levels::walk_once::{Walk, locations};
use find_path_levels::{Sought, Stack};
use find_path_rules::rule_lookups::is_importable;
use find_path_spec::FindPathCtx;
use hir_def::Item;
use hir_def::item_scope::modules_in_scope;
use hir_def::items::first_of;
use snapshot::ids::ModuleId;
use snapshot::reading::word;
use snapshot::record::{scope_definition, scope_owner};
use snapshot::records::Records;

/// Searches of a question that found nothing where the numbers let them.
pub struct Failures;

impl Failures {
    /// Their number stands before the rows.
    pub const AT: usize = 15871;

    /// From this many on, it is tested first whether an answer can be come to under the levels.
    pub const MANY: usize = 32;

    /// With less left there is no room for the numbers and a walk past them.
    pub const LEFT: usize = 3;
}

// Whether a search for m under the levels takes c.
fn takes(
    records: &Records,
    area: &mut [u32],
    x: FindPathCtx,
    s: Stack,
    m: ModuleId,
    c: ModuleId,
) -> bool
    requires { Searchable records.now.words.now area.old records.now.layout x 3 s × (m.0 < records.now.layout.modules) }
    ensures { Scratched (s.top + module_limit) area.old area.new
        × (result ≡ has (locations (snap_by records.now area.old) x (levels_of area.old s.place s.depth) m.0) c.0) }
{
    let here = Stack {
        top: s.top + ModuleId::LIMIT,
        place: s.place,
        depth: s.depth,
    };
    let sought = Sought { item: Item::Mod(m) };
    let n = locations(records, area, x.from, here, sought);
    has(area, here.top, n, c)
}

// The step of an entry for a module, to the number d at most, if the viewer can import it.
fn relax_entry(records: &Records, area: &mut [u32], x: FindPathCtx, s: Stack, h: usize, d: usize)
    requires { Searchable records.now.words.now area.old records.now.layout x 3 s
        × ScopeFits (counts_in records.now.layout) (scope_at records.now.words.now h)
        × (entry_module (snap_by records.now area.old) (scope_at records.now.words.now h) < records.now.layout.modules) × (d < 2 ^ 32) }
    ensures { Falls s.top d area.old area.new
        × Relaxed (snap_by records.now area.old) x (levels_of area.old s.place s.depth) (number area.new s.top) d (scope_at records.now.words.now h) }
{
    let m = first_of(records, scope_definition(records.words, h));
    let at = s.top + m;
    if word(area, at) <= d {
        return;
    }
    let db = Snapshot {
        records: *records,
        area,
    };
    // As in `distances`.
    if !is_importable(&db, x, h) {
        return;
    }
    let owner = scope_owner(records.words, h);
    let Some(_) = importable_name(&db, x, Item::Mod(ModuleId(m)), owner) else {
        return;
    };
    if !takes(records, area, x, s, ModuleId(m), owner) {
        return;
    }
    area[at] = d as u32;
}

// The steps of the entries of m, to the number d at most.
// `loop`: each turn looks for the next entry after the last, in the snapshot as it then is.
fn relax_scope(records: &Records, area: &mut [u32], x: FindPathCtx, s: Stack, m: ModuleId, d: usize)
    requires { Searchable records.now.words.now area.old records.now.layout x 3 s × (d < 2 ^ 32) }
    ensures { Falls s.top d area.old area.new
        × Each (Opened (snap_by records.now area.old) x (levels_of area.old s.place s.depth) (number area.new s.top) m.0 d)
        (snap_by records.now area.old).scopes }
{
    let mut k = 0;
    loop {
        let db = Snapshot {
            records: *records,
            area,
        };
        let Some(next) = modules_in_scope(&db, k, m) else {
            return;
        };
        relax_entry(records, area, x, s, next.head, d);
        k = next.number + 1;
    }
}

// The steps from m, where its number is d.
fn relax_at(records: &Records, area: &mut [u32], x: FindPathCtx, s: Stack, m: ModuleId, d: usize)
    requires { Searchable records.now.words.now area.old records.now.layout x 3 s × (d < 16) × (m.0 < records.now.layout.modules) }
    ensures { Falls s.top (d + 1) area.old area.new
        × (number area.old s.top m.0 ≡ d → Each (Opened (snap_by records.now area.old) x (levels_of area.old s.place s.depth)
        (number area.new s.top) m.0 (d + 1)) (snap_by records.now area.old).scopes) }
{
    if word(area, s.top + m.0) != d {
        return;
    }
    relax_scope(records, area, x, s, m, d + 1);
}

// The steps from the modules of the walk with the number d.
fn relax(records: &Records, area: &mut [u32], x: FindPathCtx, s: Stack, d: usize)
    requires { Searchable records.now.words.now area.old records.now.layout x 3 s × (d < 16) }
    ensures { Turned (snap_by records.now area.old) x (levels_of area.old s.place s.depth) (walk (snap_by records.now area.old) x)
        s.top d area.old area.new }
{
    for k in 0..word(area, Walk::COUNT) {
        let m = ModuleId(word(area, Walk::AT + k));
        relax_at(records, area, x, s, m, d);
    }
}

// The number that a module begins with: 1 where a rule may answer for it.
fn first_number(area: &[u32], m: ModuleId) -> usize
    requires { m.0 < module_limit }
    ensures { (0 < result) × (result ≤ 16) × (distance area.now m.0 ≤ 1 → result ≤ 1) }
{
    if word(area, Distances::AT + m.0) <= 1 {
        return 1;
    }
    Distances::FAR
}

// The numbers begin.
fn begin(area: &mut [u32], s: Stack, count: usize)
    requires { (count ≤ module_limit) × (walk_end ≤ s.top) × (s.top + module_limit ≤ rows_at) × (length area.old ≡ area_limit) }
    ensures { Begun s.top count area.old area.new }
{
    for m in 0..count {
        let d = first_number(area, ModuleId(m));
        let at = s.top + m;
        area[at] = d as u32;
    }
}

// Whether no answer can be come to from m with that length left.
fn is_far(
    records: &Records,
    area: &mut [u32],
    x: FindPathCtx,
    left: usize,
    m: ModuleId,
    s: Stack,
) -> bool
    requires { (3 ≤ left) × Searchable records.now.words.now area.old records.now.layout x left s × (m.0 < records.now.layout.modules) }
    ensures { Scratched s.top area.old area.new
        × (result ≡ true → near (snap_by records.now area.old) x (levels_of area.old s.place s.depth) left m.0 ≡ false) }
{
    begin(area, s, records.layout.modules);
    for d in 1..left {
        relax(records, area, x, s, d);
    }
    left < word(area, s.top + m.0)
}

/// Whether it is known that a search for m finds nothing: it is looked at after many that found nothing, where there is room.
pub fn is_lost(
    records: &Records,
    area: &mut [u32],
    x: FindPathCtx,
    left: usize,
    m: ModuleId,
    s: Stack,
) -> bool
    requires { Searchable records.now.words.now area.old records.now.layout x left s × (m.0 < records.now.layout.modules) }
    ensures { Scratched s.top area.old area.new
        × (result ≡ true → search_local (snap_by records.now area.old) x left (levels_of area.old s.place s.depth) m.0 ≡ nothing) }
{
    if left < Failures::LEFT {
        return false;
    }
    if word(area, Failures::AT) < Failures::MANY {
        return false;
    }
    is_far(records, area, x, left, m, s)
}

/// Counts a search that found nothing.
pub fn note(area: &mut [u32], top: usize, r: Option<Choice>)
    requires { (top ≤ failures_at) × (failures_at < length area.old) }
    ensures { Scratched top area.old area.new }
{
    if r.is_some() {
        return;
    }
    let n = word(area, Failures::AT);
    if Failures::MANY <= n {
        return;
    }
    area[Failures::AT] = (n + 1) as u32;
}
