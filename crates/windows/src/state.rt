//! The state of eight windows: whose question waits, which window is next, what placing and serving change, and the state as words.

pub mod rows;
pub mod serve;
pub mod window;
pub mod words;
