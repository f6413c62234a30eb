//! Which path names an item where it is written, and whether any does: definitions and theorems, no functions.
//! Uses the definitions of the check and of the lookups.
#![tactic(auto)]
