//! Which entries of a scope are seen from a module: the compiler's privacy, and the declaration of an entry's item.

pub mod entries;
pub mod lookups;
pub mod privacy;
