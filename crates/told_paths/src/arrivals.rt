//! The first path to an item, over the rows of a run.

pub mod arrivals;
mod plain;
mod rows;

/// The last step of a path: its link and its name as in a row, and the place of the record by which the name is read.
// `link` is the number that a row has: an enum would be made of that word here, and a number again where `told_paths` follows it.
#[derive(Clone, Copy)]
pub struct LastStep {
    pub link: usize,
    pub name: usize,
    pub at: usize,
}
