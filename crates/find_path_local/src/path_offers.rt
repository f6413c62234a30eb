//! What a step of a search offers.
//! What a step of a search offers: a name for a module's path, and the choice of the two.

ghost use Rattle.std.specs.Prelude.{◌≡◌, ℕ, None, false, ◌<◌, ◌≤◌, ◌^◌};
ghost use Rattle.snapshot.specs.Records.{scope_at, import_at};
ghost use Rattle.check_records.specs.record_rules.Stands.{counts_in};
ghost use Rattle.accept.specs.Valid.{ScopeFits, ImportFits};
ghost use Rattle.accept.specs.Opened.{snap_in};
ghost use Rattle.hir_def.specs.Entries.{entry_of};
ghost use Rattle.find_path_choice.specs.Given.{given};
ghost use Rattle.find_path_spec.specs.Conditions.{EntryFits};
ghost use Rattle.find_path_spec.specs.Local.{offer as offer_of, offer_entry, is_importable, importable_name};
ghost use Rattle.find_path_spec.specs.Charged.{offer_import};
ghost use Rattle.find_path_local.specs.path_offers.Named.{names_importably};

use accept::opened::Snapshot;
use find_path_choice::Choice;
use find_path_choice::choices::{StepRule, step_by, unstably};
use find_path_rules::rule_lookups::{Rule, entry_by, is_importable};
use find_path_spec::FindPathCtx;
use hir_def::Item;
use hir_def::chain::{item_key, next_in_chain};
use hir_def::import_map::is_unstable;
use hir_def::items::item_at;
use record_index::chains::Chain;
use snapshot::ids::{ModuleId, Name};
use snapshot::record::{import_name, scope_name};

/// The entry by which the viewer can import the item from the module, its first; by options bit 32 the first such one that isn't
/// deprecated, if there is one.
pub fn importable_name(db: &Snapshot, x: FindPathCtx, item: Item, m: ModuleId) -> Option<usize>
    requires { x.from.0 < db.now.records.layout.modules }
    ensures { (entry_of scope_at db.now.records.words.now result ≡ importable_name (snap_in db.now) x item m.0)
        × EntryFits db.now.records.words.now db.now.records.layout result }
{
    let h = entry_by(db, x, m, item, Rule::Local).entry?;
    if is_importable(db, x, h) {
        return Some(h);
    }
    None
}

// Whether the scope entry with its head at a place is one for the item that the viewer can import.
fn names_importably(db: &Snapshot, x: FindPathCtx, item: Item, h: usize) -> bool
    requires { (x.from.0 < db.now.records.layout.modules) × (2 ≤ (scope_at db.now.records.words.now h).visibility
        → (scope_at db.now.records.words.now h).number < db.now.records.layout.modules) }
    ensures { result ≡ names_importably (snap_in db.now) x item (scope_at db.now.records.words.now h) }
{
    if item_at(&db.records, h) != item {
        return false;
    }
    is_importable(db, x, h)
}

/// Whether the viewer can import the item from some module; if not, no search through its modules finds it.
pub fn is_named(db: &Snapshot, x: FindPathCtx, item: Item) -> bool
    requires { x.from.0 < db.now.records.layout.modules }
    ensures { result ≡ false → (m : ℕ) → importable_name (snap_in db.now) x item m ≡ None }
{
    let test = |h| names_importably(db, x, item, h);
    next_in_chain(db, Chain::Items, item_key(item), 0, test).is_some()
}

// The better of the choice so far and the module's choice with the name, by a step, if it has one.
fn offer(
    db: &Snapshot,
    x: FindPathCtx,
    best: Option<Choice>,
    c: Option<Choice>,
    n: Name,
    via: usize,
) -> Option<Choice>
    requires { (n.0 < db.now.records.layout.names) × ((given best).count < 2 ^ 32) × ((given c).count < 16) × ((given c).path_text_len < 2 ^ 32)
        × ((given c).steps < 17) }
    ensures { given result ≡ offer_of (snap_in db.now) x (given best) (given c) n.0 via }
{
    let Some(other) = c else {
        return best;
    };
    Some(Choice::try_select(best, db, x.prefer_prelude, other, n, via))
}

/// The better of the choice so far and the module's choice with the name of the scope entry with its head at a place.
pub fn offer_entry(
    db: &Snapshot,
    x: FindPathCtx,
    best: Option<Choice>,
    c: Option<Choice>,
    h: usize,
) -> Option<Choice>
    requires { ScopeFits (counts_in db.now.records.layout) (scope_at db.now.records.words.now h) × ((given best).count < 2 ^ 32)
        × ((given c).count < 16) × ((given c).path_text_len < 2 ^ 32) × ((given c).steps < 17) }
    ensures { given result ≡ offer_entry (snap_in db.now) x (given best) (given c) (scope_at db.now.records.words.now h) }
{
    let n = scope_name(db.records.words, h);
    let via = step_by(StepRule::Local, h);
    offer(db, x, best, c, n, via)
}

/// The same for the import with its head at a place: an unstable one only where it is allowed, and as an unstable choice.
pub fn offer_import(
    db: &Snapshot,
    x: FindPathCtx,
    best: Option<Choice>,
    c: Option<Choice>,
    h: usize,
) -> Option<Choice>
    requires { ImportFits (counts_in db.now.records.layout) (import_at db.now.records.words.now h) × ((given best).count < 2 ^ 32)
        × ((given c).count < 16) × ((given c).path_text_len < 2 ^ 32) × ((given c).steps < 17) }
    ensures { given result ≡ offer_import (snap_in db.now) x (given best) (given c) (import_at db.now.records.words.now h) }
{
    let via = step_by(StepRule::Import, h);
    let n = import_name(db.records.words, h);
    if !is_unstable(db.records.words, h) {
        return offer(db, x, best, c, n, via);
    }
    if !x.allow_unstable {
        return best;
    }
    let Some(d) = c else {
        return best;
    };
    offer(db, x, best, Some(unstably(d)), n, via)
}
