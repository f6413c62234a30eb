//! What is set for a question.
//! What is set for a question, what its viewer sees, and the charges on its tank.

ghost use Rattle.std.specs.Prelude.{◌≡◌, ◌+◌, ◌≤◌, ◌<◌, ◌^◌};
ghost use Rattle.snapshot.specs.Records.{scope_at};
ghost use Rattle.accept.specs.Opened.{snap_in};
ghost use Rattle.module_tree.specs.rules.Visibility.{sees as sees_of};
ghost use Rattle.hir_def.specs.Items.{item_of};
ghost use Rattle.find_path_spec.specs.Rules.{bit as bit_of, plain_if, module_in, context_of, sought_of};
ghost use Rattle.find_path_spec.specs.Meters.{drained as drained_to, from_tank};
ghost use Rattle.find_path_spec.specs.Conditions.{charged_by};

use accept::opened::Snapshot;
use find_path_spec::{FindPathCtx, Query, Tank};
use hir_def::Item;
use hir_def::items::{is_lang, supports_no_std};
use module_tree::modules::{crate_root, in_block, krate, no_std};
use module_tree::visibility::is_visible_from;
use snapshot::ids::{ModuleId, Options, Prefix};
use snapshot::record::scope_seen;

// The bit of that value.
fn bit(n: usize, value: usize) -> bool
    requires { 0 < value }
    ensures { result ≡ bit_of n value }
{
    n / value % 2 == 1
}

// `block` is the result of `in_block`, passed on.
fn plain_if(block: bool, prefix: usize) -> usize
    ensures { result ≡ plain_if block prefix }
{
    if block {
        return Prefix::Plain as usize;
    }
    prefix
}

/// The module that an item is, +1, or 0 where it is none.
// A number, as `own` and `sought` are: words of a report for C.
pub fn module_in(item: Item) -> usize
    requires { module_in item < 2 ^ 32 }
    ensures { result ≡ module_in item }
{
    match item {
        Item::Mod(m) => m.0 + 1,
        Item::Def(_, _) => 0,
    }
}

/// What is set for a question about an item of that home; `own` is the module that the item is, +1, or 0.
// `own` as `module_in` gives it.
pub fn context(db: &Snapshot, q: Query, home: ModuleId, own: usize) -> FindPathCtx
    requires { (q.from.0 < db.now.records.layout.modules) × (home.0 < db.now.records.layout.modules)
        × (own ≡ module_in (item_of (snap_in db.now) q.ns q.definition.0)) }
    ensures { result ≡ context_of (snap_in db.now) q home.0 }
{
    let options = q.options;
    let from = q.from;
    let prefix = plain_if(in_block(db, home), q.prefix);
    let here = krate(db, from);
    let map = no_std(db, from);
    let its = supports_no_std(&db.records, here);
    let nostd = bit(options, Options::PREFER_NO_STD) | (map | its);
    let prelude = bit(options, Options::PREFER_PRELUDE);
    let absolute = bit(options, Options::PREFER_ABSOLUTE);
    let unstable = bit(options, Options::ALLOW_UNSTABLE);
    let declared = bit(options, Options::IGNORE_LOCAL_IMPORTS);
    let fresh = bit(options, Options::FRESH);
    let std = is_lang(&db.records, krate(db, home));
    let root = crate_root(db, from);
    FindPathCtx {
        prefix: prefix,
        prefer_no_std: nostd,
        prefer_prelude: prelude,
        prefer_absolute: absolute,
        allow_unstable: unstable,
        ignore_local_imports: declared,
        fresh: fresh,
        is_std_item: std,
        from: from,
        from_crate: here,
        crate_root: root,
        own: own,
        max_len: q.limit,
    }
}

/// Whether the viewer sees the entry with its head at a place.
pub fn sees(db: &Snapshot, x: FindPathCtx, h: usize) -> bool
    requires { (x.from.0 < db.now.records.layout.modules) × (2 ≤ (scope_at db.now.records.words.now h).visibility
        → (scope_at db.now.records.words.now h).number < db.now.records.layout.modules) }
    ensures { result ≡ sees_of (snap_in db.now) x.from.0 (scope_at db.now.records.words.now h) }
{
    is_visible_from(db, scope_seen(db.records.words, h), x.from)
}

// What a charge looks for: a module, +1, or 0 for the question's own item or its enum.
// A number, as in `module_in`.
fn sought_of(x: FindPathCtx, item: Item) -> usize
    requires { module_in item < 2 ^ 32 }
    ensures { result ≡ sought_of x item }
{
    let m = module_in(item);
    if m == x.own {
        return 0;
    }
    m
}

// The tank that is found empty: the first time, with what the charge was told.
fn drained(t: Tank, left: usize, sought: usize) -> Tank
    ensures { result ≡ drained_to left sought t t.empty }
{
    if t.empty {
        return Tank {
            fuel: 0,
            spent: t.spent,
            empty: true,
            left: t.left,
            sought: t.sought,
        };
    }
    Tank {
        fuel: 0,
        spent: t.spent,
        empty: true,
        left: left,
        sought: sought,
    }
}

// Takes one from the fuel and counts it; at fuel 0 the tank is found empty.
fn take_unit(t: Tank, left: usize, sought: usize) -> Result<Tank, Tank>
    requires { t.fuel + t.spent < 2 ^ 32 }
    ensures { charged_by result ≡ from_tank left sought t }
{
    let fuel = t.fuel;
    let spent = t.spent;
    if fuel == 0 {
        return Err(drained(t, left, sought));
    }
    Ok(Tank {
        fuel: fuel - 1,
        spent: spent + 1,
        empty: t.empty,
        left: t.left,
        sought: t.sought,
    })
}

/// A charge for an item at a length left: it takes one from the fuel and is counted; at fuel 0 it stops, and the tank is found empty.
pub fn charge(x: FindPathCtx, left: usize, item: Item, t: Tank) -> Result<Tank, Tank>
    requires { (module_in item < 2 ^ 32) × (t.fuel + t.spent < 2 ^ 32) }
    ensures { charged_by result ≡ from_tank left (sought_of x item) t }
{
    take_unit(t, left, sought_of(x, item))
}
