//! The step of a crate, a map and a module.

pub mod crates;
pub mod maps;
pub mod modules;
