//! A snapshot inside a larger one: what lookups, search and printer answer there. Definitions and theorems, no functions.
//! Uses the printer and the definitions of `join_rules`.
#![tactic(auto)]
