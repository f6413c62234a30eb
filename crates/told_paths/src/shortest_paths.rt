//! A shortest path to an item, on checked words.

mod by_enum;
pub mod shortest;
mod told;
