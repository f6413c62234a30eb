//! The check of a snapshot: which words are one, and by which number the others are refused.
//! Uses the steps of `check_records` and the index.
#![tactic(auto)]

mod arguments;
pub mod check;
mod finish;
pub mod opened;
mod turn;
