//! The records by which the names of a path are read.

mod names;
pub mod routes;
mod starts;

use hir_def::Item;

/// What the names read so far mean, and the place of the record by which the last of them is read.
#[derive(Clone, Copy)]
pub struct Meaning {
    pub item: Item,
    pub place: usize,
}
