//! The order of a crate's imports, after `collect_import_map` of import_map.rs: the definition of the whole list, and the order of entries.

pub mod entries;
pub mod sort;
pub mod texts;
