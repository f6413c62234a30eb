//! A snapshot as words: kinds and payloads, records, numbers that do not mix, limits, sizes and refusals.
//! Uses no other crate.
#![tactic(auto)]

pub mod ids;
pub mod kind;
pub mod layout;
pub mod reading;
pub mod record;
pub mod records;
pub mod refusal;
pub mod table;
pub mod text;
