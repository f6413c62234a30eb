//! A shortest path to an item, whether any path names it, and the entries that can be used from a module.
//! Uses the lookups, and of the search its definitions alone.
#![tactic(auto)]

mod begin;
mod expand;
mod firsts;
pub mod places;
pub mod plain;
pub mod rows;
pub mod run;
pub mod seen_entries;
mod singles;
