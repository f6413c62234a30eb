//! The modules that a crate's import list goes through: from its root, the last pushed first, each once.
//! The n entries stand in the area before the threads and the pile, which this changes: so the area is passed whole, with n.
ghost use Rattle.std.specs.Prelude.{◌≡◌, ◌+◌, ◌≤◌, ◌<◌, [], ◌∷◌, length};
ghost use Rattle.snapshot.specs.Limits.{word_limit, module_limit};
ghost use Rattle.snapshot.specs.Records.{scope_at};
ghost use Rattle.snapshot.specs.Laid.{snap_by};
ghost use Rattle.imports.specs.order.Lists.{Ready};
ghost use Rattle.import_rules.specs.Collect.{entries_of, piled};
ghost use Rattle.imports.specs.lists.Threads.{Threaded};
ghost use Rattle.imports.specs.lists.Walks.{marks_base, order_base, pile_base, pile_at, Pushed, Walking, Turned, Walked};

use crate::lists::threads::member_links_base;
use crate::order::sort::Lists;
use accept::opened::Snapshot;
use check_records::chains::chain::clear;
use hir_def::items::{first_of, known_kind_of};
use module_tree::modules::{own, root};
use snapshot::ids::{Crate, DefinitionKind, ModuleId};
use snapshot::layout::Layout;
use snapshot::reading::word;
use snapshot::record::scope_definition;
use snapshot::records::Records;

/// After a turn: how many modules are in order, and how many wait.
#[derive(Clone, Copy)]
pub struct Turn {
    pub order: usize,
    pub top: usize,
}

// The first word of the marks of the modules that were visited.
fn marks_base(l: Layout) -> usize
    requires { l.scopes + l.definitions + l.members ≤ word_limit }
    ensures { result ≡ marks_base l }
{
    member_links_base(l) + l.members
}

/// The first word of these modules, in order.
pub fn order_base(l: Layout) -> usize
    requires { l.scopes + l.definitions + l.members ≤ word_limit }
    ensures { result ≡ order_base l }
{
    marks_base(l) + ModuleId::LIMIT
}

// The first word of the modules that wait, the last to be taken first.
fn pile_base(l: Layout) -> usize
    requires { l.scopes + l.definitions + l.members ≤ word_limit }
    ensures { result ≡ pile_base l }
{
    order_base(l) + l.scopes + 1
}

// Puts the module that an entry names, if it names one, on the pile of so many.
fn push(records: &Records, area: &mut [u32], entry: usize, top: usize) -> usize
    requires { Ready records.now.words.now area.old records.now.layout × (top ≤ records.now.layout.scopes)
        × ((scope_at records.now.words.now entry).definition < records.now.layout.definitions) }
    ensures { Pushed records.now.layout top (piled (snap_by records.now area.old) (scope_at records.now.words.now entry ∷ [])
        (pile_at area.old records.now.layout top)) area.old area.new result }
{
    let d = scope_definition(records.words, entry);
    if known_kind_of(records, d) != Some(DefinitionKind::Module) {
        return top;
    }
    let m = first_of(records, d);
    let at = pile_base(records.layout) + top;
    area[at] = m as u32;
    top + 1
}

// Puts the modules that the entries of a module name on the pile.
// `while`: it follows links, so the next place is read.
// The links of `write::put_module`; the step writes other words, and as a closure it would have the invariant of the walk as a clause.
fn push_modules(records: &Records, area: &mut [u32], n: usize, m: ModuleId, top: usize) -> usize
    requires { Threaded records.now.words.now area.old records.now.layout n × (m.0 < module_limit)
        × (top + length (entries_of (snap_by records.now area.old) m.0) ≤ records.now.layout.scopes + 1) }
    ensures { Pushed records.now.layout top (piled (snap_by records.now area.old)
        (entries_of (snap_by records.now area.old) m.0) (pile_at area.old records.now.layout top)) area.old
        area.new result }
{
    let mut t = top;
    let mut at = word(area, Lists::HEADS + m.0);
    while at != 0 {
        let entry = word(area, Lists::ENTRIES + (n - at));
        t = push(records, area, entry, t);
        at = word(area, Lists::SPARE + (at - 1));
    }
    t
}

// Visits the module on top of the pile, if it was not: marks it, puts it in order after k others, and its modules on the pile.
fn visit(records: &Records, area: &mut [u32], n: usize, k: usize, top: usize) -> Turn
    requires { Walking records.now.words.now area.old records.now.layout n k (top + 1) }
    ensures { Turned records.now.words.now area.old records.now.layout n k top area.new result }
{
    let m = word(area, pile_base(records.layout) + top);
    let mark = marks_base(records.layout) + m;
    if area[mark] != 0 {
        return Turn { order: k, top: top };
    }
    area[mark] = 1;
    area[order_base(records.layout) + k] = m as u32;
    let t = push_modules(records, area, n, ModuleId(m), top);
    Turn {
        order: k + 1,
        top: t,
    }
}

/// Puts the modules of a crate in order, and answers how many there are.
// `while`: the pile grows in the loop.
pub fn walk(records: &Records, area: &mut [u32], n: usize, c: Crate) -> usize
    requires { Threaded records.now.words.now area.old records.now.layout n × (c.0 < records.now.layout.crates) }
    ensures { Walked records.now.words.now area.old records.now.layout c.0 area.new result }
{
    let base = marks_base(records.layout);
    clear(area, base, base + ModuleId::LIMIT);
    let db = Snapshot {
        records: *records,
        area,
    };
    let first = root(&db, own(&db, c));
    area[pile_base(records.layout)] = first.0 as u32;
    let mut k = 0;
    let mut top = 1;
    while top != 0 {
        let t = visit(records, area, n, k, top - 1);
        k = t.order;
        top = t.top;
    }
    k
}
