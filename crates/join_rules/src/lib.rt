//! Two snapshots joined, as lists and as words, and where their numbers go: definitions and theorems, no functions.
//! Uses the definitions of the search and of edits.
#![tactic(auto)]
