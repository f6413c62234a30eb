//! The modules of an accepted snapshot, and what is visible from them.
//! Uses the check; no items and no names.
#![tactic(auto)]

pub mod modules;
pub mod visibility;
