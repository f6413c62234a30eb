//! The words of a join: the first's as they are, then the second's with their numbers moved, kind by kind.

pub mod fields;
pub mod write;
