//! The two parts of a join.
use snapshot::records::Records;

/// The words of both, with their layouts.
// The first is no `Snapshot`: the check of the second wrote over its tables.
#[derive(Clone, Copy)]
pub struct Parts<'w, 'x> {
    pub first: Records<'w>,
    pub second: Records<'x>,
}
