//! The new numbers of a join, for callers who move their questions to the joined words.

pub mod numbers;
pub mod read;
