//! A crate's import list, after `collect_import_map` of import_map.rs, for every words.

pub mod threads;
pub mod walk;
pub mod write;
