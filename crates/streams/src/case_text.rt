//! Lists of test cases as text.

pub mod text;
pub mod words;
