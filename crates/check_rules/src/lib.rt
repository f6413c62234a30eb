//! Which words are a snapshot, and by which number and at which place others are refused: definitions and rows, no functions.
//! Uses `snapshot` alone.
#![tactic(auto)]
