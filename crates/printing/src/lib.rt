//! Bytes that come in as words, text that goes out as bytes, and what a refusal says in words.
//! Uses `snapshot` alone.
#![tactic(auto)]

pub mod input;
pub mod output;
pub mod wording;
