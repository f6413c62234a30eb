//! A snapshot's words with one scope record more or less.

pub mod entries;
pub mod moves;
pub mod places;
