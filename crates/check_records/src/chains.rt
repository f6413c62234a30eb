//! Records in chains by a key, in the work area: each key has the last number with it, each number the one before it with the same key.

pub mod chain;
pub mod keys;
