//! What the lookups over an accepted snapshot answer, in files that are called as the Rust's: item_scope, nameres, import_map, and the crate graph.
//! Uses the check and `module_tree`; no rule of the search.
#![tactic(auto)]

ghost use Rattle.std.specs.Prelude.{◌+◌, ◌*◌, ◌^◌, ◌<◌};

pub mod chain;
pub mod crate_graph;
pub mod finds;
pub mod import_map;
pub mod item_scope;
pub mod items;
pub mod nameres;
pub mod spans;

use accept::opened::Snapshot;
use snapshot::ids::{DefinitionId, ModuleId, Namespace};

// An item: a module in the types namespace, or a namespace and another definition.
// Two kinds of things, neither of them an error: a `Result` would call one so.
#[derive(Clone, Copy, PartialEq, Eq)]
pub enum Item {
    Mod(ModuleId),
    Def(Namespace, DefinitionId),
}

/// An item's entry in a scope, and how many scope records were read for it.
#[derive(Clone, Copy)]
pub struct Lookup {
    pub entry: Option<usize>,
    pub read: usize,
}

/// The number of a record of its kind and the place of its head.
#[derive(Clone, Copy)]
pub struct Place {
    pub number: usize,
    pub head: usize,
}

/// Records of one size from a place on.
#[derive(Clone, Copy)]
pub struct Span {
    pub base: usize,
    pub size: usize,
    pub count: usize,
    ghost fits: { base + size * count < 2 ^ 32 },
}

/// The numbers of some records of a kind: from the first on, up to the one before `high`.
#[derive(Clone, Copy)]
pub struct Part {
    pub low: usize,
    pub high: usize,
}

/// The viewing module in its snapshot.
// For readers whose viewer stays the same. A function that writes to the area makes one where it calls them: while a view is there, its area is
// only read.
#[derive(Clone, Copy)]
pub struct View<'w, 'a> {
    pub db: Snapshot<'w, 'a>,
    pub from: ModuleId,
    ghost inside: { from.0 < db.records.layout.modules },
}
