//! An accepted snapshot, asked.
ghost use Rattle.std.specs.Prelude.{◌≡◌, ◌<◌, ◌≤◌, IfOk};

use crate::answer::{Answer, OutOfRange};
use crate::query::{Kind, Query};
use accept::opened::Snapshot;
use hir_def::Item;
use hir_def::crate_graph::extern_of;
use hir_def::item_scope::{entry_in, name_of};
use hir_def::items::{home_of, item_of};
use hir_def::nameres::{entry_named, occupied, scope_entry};
use module_tree::modules::{containing_module, crate_root};
use module_tree::visibility::is_visible_from;
use snapshot::ids::{Crate, DefinitionId, ModuleId, Name, Visibility};
use snapshot::record::{extern_name, scope_definition, scope_name};

/// An accepted snapshot, and what is asked of it.
#[derive(Clone, Copy)]
pub struct Asked<'w, 'a> {
    pub db: Snapshot<'w, 'a>,
}

// A number that is below a limit.
fn below(n: usize, limit: usize) -> Result<usize, OutOfRange>
    ensures { IfOk result (λ m. (m ≡ n) × (m < limit)) }
{
    if n < limit { Ok(n) } else { Err(OutOfRange) }
}

impl Asked<'_, '_> {
    fn module(&self, n: usize) -> Result<ModuleId, OutOfRange>
        ensures { IfOk result (λ m. (m.0 ≡ n) × (m.0 < self.now.db.records.layout.modules)) }
    {
        Ok(ModuleId(below(n, self.db.records.layout.modules)?))
    }

    fn name(&self, n: usize) -> Result<Name, OutOfRange>
        ensures { IfOk result (λ m. (m.0 ≡ n) × (m.0 < self.now.db.records.layout.names)) }
    {
        Ok(Name(below(n, self.db.records.layout.names)?))
    }

    fn item(&self, ns: usize, d: usize) -> Result<Item, OutOfRange> {
        let d = below(d, self.db.records.layout.definitions)?;
        Ok(item_of(&self.db.records, ns, DefinitionId(d)))
    }

    // The name of an entry.
    fn name_at(&self, e: Option<usize>) -> Answer {
        Answer::Number(e.map(|h| scope_name(self.db.records.words, h).0))
    }

    // Whether a visibility whose module is there reaches the viewer.
    fn seen(&self, kind: usize, number: usize, viewer: ModuleId) -> Answer
        requires { (viewer.0 < self.now.db.records.layout.modules) × (2 ≤ kind → number < self.now.db.records.layout.modules) }
    {
        let visibility = Visibility::of(kind, number);
        let seen = is_visible_from(&self.db, visibility, viewer);
        Answer::Truth(seen)
    }

    fn visible(&self, kind: usize, number: usize, viewer: usize) -> Result<Answer, OutOfRange> {
        let viewer = self.module(viewer)?;
        if 1 < kind {
            self.module(number)?;
        }
        Ok(self.seen(kind, number, viewer))
    }

    fn name_in(&self, m: usize, ns: usize, d: usize) -> Result<Answer, OutOfRange> {
        let m = self.module(m)?;
        let item = self.item(ns, d)?;
        Ok(self.name_at(name_of(&self.db, m, item).entry))
    }

    // How many scope records the lookup of the item reads.
    fn reads(&self, m: usize, ns: usize, d: usize, choice: Choice) -> Result<Answer, OutOfRange> {
        let m = self.module(m)?;
        let item = self.item(ns, d)?;
        let found = entry_in(&self.db, m, item, choice.declared, choice.fresh);
        Ok(Answer::Number(Some(found.read)))
    }

    fn scope(
        &self,
        from: usize,
        ns: usize,
        d: usize,
        choice: Choice,
    ) -> Result<Answer, OutOfRange> {
        let from = self.module(from)?;
        let item = self.item(ns, d)?;
        let Choice { declared, fresh } = choice;
        let e = scope_entry(&self.db, from, item, declared, fresh);
        Ok(self.name_at(e))
    }

    fn named(&self, from: usize, ns: usize, n: usize) -> Result<Answer, OutOfRange> {
        let from = self.module(from)?;
        let n = self.name(n)?;
        let e = entry_named(&self.db, from, ns, n);
        let d = e.map(|h| scope_definition(self.db.records.words, h).0);
        Ok(Answer::Number(d))
    }

    fn taken(&self, from: usize, m: usize, n: usize) -> Result<Answer, OutOfRange> {
        let from = self.module(from)?;
        let m = self.module(m)?;
        let n = self.name(n)?;
        let taken = occupied(&self.db, from, m, n);
        Ok(Answer::Truth(taken))
    }

    // Of one shape with `container` and `home`: what differs is the lookup, and whether it may answer nothing.
    fn root(&self, m: usize) -> Result<Answer, OutOfRange> {
        let m = self.module(m)?;
        let root = crate_root(&self.db, m);
        Ok(Answer::Number(Some(root.0)))
    }

    fn container(&self, m: usize) -> Result<Answer, OutOfRange> {
        let m = self.module(m)?;
        let container = containing_module(&self.db, m);
        Ok(Answer::Number(container.map(|m| m.0)))
    }

    fn extern_named(&self, c: usize, m: usize) -> Result<Answer, OutOfRange> {
        let c = Crate(below(c, self.db.records.layout.crates)?);
        let m = self.module(m)?;
        let e = extern_of(&self.db, c, m);
        let n = e.map(|h| extern_name(self.db.records.words, h).0);
        Ok(Answer::Number(n))
    }

    fn home(&self, ns: usize, d: usize) -> Result<Answer, OutOfRange> {
        let item = self.item(ns, d)?;
        let home = home_of(&self.db.records, item);
        Ok(Answer::Number(home.map(|m| m.0)))
    }

    /// The answer to a query.
    pub fn answer(&self, query: Query) -> Result<Answer, OutOfRange> {
        let [a, b, c, d] = query.numbers;
        match query.kind {
            Kind::Visible => self.visible(a, b, c),
            Kind::Name => self.name_in(a, b, c),
            Kind::Scope => self.scope(a, b, c, Choice::from(d)),
            Kind::Named => self.named(a, b, c),
            Kind::Occupied => self.taken(a, b, c),
            Kind::Root => self.root(a),
            Kind::Containing => self.container(a),
            Kind::Extern => self.extern_named(a, b),
            Kind::Home => self.home(a, b),
            Kind::Reads => self.reads(a, b, c, Choice::from(d)),
            Kind::Unknown => Err(OutOfRange),
        }
    }
}

// Which entries of a scope serve: declared ones only, and old names last.
#[derive(Clone, Copy)]
struct Choice {
    declared: bool,
    fresh: bool,
}

// No derive makes a `From`: one number of the list stands for both flags.
impl From<usize> for Choice {
    fn from(number: usize) -> Choice {
        Choice {
            declared: number % 2 == 1,
            fresh: 2 <= number,
        }
    }
}
