//! What is asked of each record: a step for each kind, with the chains and marks by which a repeat is found.
//! Uses the words of `snapshot` and the definitions of `check_rules`.
#![tactic(auto)]

pub mod chains;
pub mod item_records;
pub mod module_records;
pub mod record_rules;
pub mod records;
