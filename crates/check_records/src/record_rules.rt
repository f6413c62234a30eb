//! What is asked of each record, and the step of a name.

pub mod crates;
pub mod judge;
pub mod names;
