//! Rows of modules, in the last words of the work area: the answer of a local search for a module that has just its number left and whose
//! levels are all farther does not depend on the levels, so it is searched once.

ghost use Rattle.std.specs.Prelude.{◌≡◌, true, false, ℕ, ◌-◌, ◌≤◌, ◌<◌, ◌^◌, get_or, length};
ghost use Rattle.snapshot.specs.Limits.{word_limit, module_limit, area_limit};
ghost use Rattle.snapshot.specs.Records.{scope_at};
ghost use Rattle.check_records.specs.record_rules.Stands.{counts_in};
ghost use Rattle.accept.specs.Valid.{ScopeFits};
ghost use Rattle.accept.specs.Opened.{snap_in};
ghost use Rattle.hir_def.specs.Items.{same_item, module_item};
ghost use Rattle.find_path_choice.specs.Choices.{via_local, step_by, extended};
ghost use Rattle.find_path_choice.specs.Given.{chosen, given};
ghost use Rattle.find_path_local.specs.distances.Distances.{distance};
ghost use Rattle.find_path_levels.specs.Levels.{item_at, Chain};
ghost use Rattle.find_path_local.specs.tight_rows.Rows.{last_place, row_of, row_place, row_flag, flagged as flagged_of};
ghost use Rattle.find_path_local.specs.tight_rows.Post.{Cleared, Farther, Tight};

use crate::distances::Distances;
use crate::near::Failures;
use accept::opened::Snapshot;
use find_path_choice::Choice;
use find_path_choice::choices::{StepRule, step_by};
use find_path_levels::Stack;
use find_path_levels::levels::any_level;
use snapshot::ids::{Area, ModuleId};
use snapshot::reading::word;
use snapshot::record::scope_name;

/// Where the rows stand, a word a module.
#[derive(Clone, Copy)]
pub struct Rows;

impl Rows {
    pub const AT: usize = 15872;
}

/// Nothing is known of the first `count` modules, and no search has failed.
// One row a module that there is, in an area with other tables on both sides: the count is not the slice's length.
pub fn clear_rows(area: &mut Area, count: usize)
    requires { count ≤ module_limit }
    ensures { Cleared area.old count area.new }
{
    area[Failures::AT..Rows::AT + count].fill(0);
}

// Whether the item of the level with its run at a place is a module with a number up to `left`.
fn is_near(area: &[u32], p: usize, left: usize) -> bool
    requires { 3 ≤ p }
    ensures { result ≡ false → (n : ℕ) → same_item (item_at (get_or area.now (p - 3) 0)) (module_item n) ≡ true
        → left < distance area.now n }
{
    let code = word(area, p - 3);
    if code % 4 != 3 {
        return false;
    }
    word(area, Distances::AT + code / 4) <= left
}

// Whether all modules on the levels have numbers larger than `left`.
fn is_clear(area: &[u32], s: Stack, left: usize) -> bool
    requires { Chain area.now s.place s.depth (length area.now) }
    ensures { result ≡ true → Farther area.now s left }
{
    let near = |p| is_near(area, p, left);
    !any_level(area, s, near)
}

/// Whether the answer for a module does not depend on the levels: its number is left, and the modules on the levels are farther.
pub fn is_tight(area: &[u32], s: Stack, left: usize, m: ModuleId) -> bool
    requires { Chain area.now s.place s.depth (length area.now) × (m.0 < module_limit) }
    ensures { result ≡ true → Tight area.now s left m.0 }
{
    if word(area, Distances::AT + m.0) != left {
        return false;
    }
    is_clear(area, s, left)
}

/// The row of a choice that ends with a scope entry, or of none.
pub fn row_of(c: Option<Choice>) -> usize
    requires { (given c).found ≡ true → (0 < (given c).steps) × ((given c).steps ≤ 17) × (last_place (given c) < word_limit) }
    ensures { (result ≡ row_of (given c)) × (result < 2 ^ 32) }
{
    let Some(d) = c else {
        return 1;
    };
    let last = d.steps - 1;
    let route = d.route;
    let row = 2 * (route[last] / 8) + 2;
    if d.has_prelude_segment {
        return row + 1;
    }
    row
}

// The choice with that flag for `prelude`.
// The value of the field `has_prelude_segment`, so a bool as this is.
fn flagged(c: Choice, flag: bool) -> Choice
    ensures { chosen result ≡ flagged_of (chosen c) flag }
{
    let mut d = c;
    d.has_prelude_segment = flag;
    d
}

/// The place of the entry of a row that has one.
pub fn row_place(row: usize) -> usize
    requires { 2 ≤ row }
    ensures { result ≡ row_place row }
{
    row / 2 - 1
}

/// The choice that a row stands for, from that for the module of its entry.
// No `From`: a row becomes a choice by the snapshot only.
pub fn from_row(db: &Snapshot, c: Choice, row: usize) -> Choice
    requires { (2 ≤ row) × ScopeFits (counts_in db.now.records.layout) (scope_at db.now.records.words.now (row_place row)) × (c.count < 16)
        × (c.path_text_len < 2 ^ 32) × (c.steps < 17) }
    ensures { chosen result ≡ extended (snap_in db.now) (chosen c) (scope_at db.now.records.words.now (row_place row)).name
        (step_by via_local (row_place row)) (row_flag row) }
{
    let h = row_place(row);
    let n = scope_name(db.records.words, h);
    let via = step_by(StepRule::Local, h);
    flagged(c.push(db, n, via), row % 2 == 1)
}
