//! The lines of an input: a snapshot, then questions, with or without a route.
//! Uses the entry points and the reach.
#![tactic(auto)]

pub mod each;
pub mod input;
pub mod lines;
pub mod questions;
pub mod route;
