//! Each final theorem with its whole statement, for a reader who wants to know what is proved: no functions. Contracts of functions stand with them.
#![tactic(auto)]
