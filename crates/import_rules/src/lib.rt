//! A crate's import list as definitions, and a snapshot's words with the list put in: definitions and theorems, no functions.
//! Uses the definitions of the search and of edits.
#![tactic(auto)]
