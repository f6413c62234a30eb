//! What a path means where it is written: the definitions, and a path's names read from the viewing module.
//! Uses the lookups of `hir_def`; no rule of the search.
#![tactic(auto)]

mod blocks;
pub mod lookups;
mod names;
pub mod paths;
