//! Edits of scope entries as definitions, and the moves of words by which they are made.
//! Uses the check; no search.
#![tactic(auto)]

pub mod scope_edits;
