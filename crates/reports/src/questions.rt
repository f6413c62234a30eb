//! Questions that come in as words, and how many go in at once.

pub mod fits;
pub mod question;
