//! What a query answers.
use std::fmt;

// Two kinds of answers, neither of them an error: that is `OutOfRange`.
#[derive(Clone, Copy, Debug, PartialEq, Eq)]
pub enum Answer {
    Truth(bool),
    Number(Option<usize>),
}

impl fmt::Display for Answer {
    fn fmt<W: fmt::Write>(&self, f: &mut fmt::Formatter<W>) -> fmt::Result {
        match self {
            Answer::Truth(true) => write!(f, "yes"),
            Answer::Truth(false) => write!(f, "no"),
            Answer::Number(Some(n)) => write!(f, "{n}"),
            Answer::Number(None) => write!(f, "-"),
        }
    }
}

/// A query has no meaning, or one of its numbers is none of the snapshot.
#[derive(Clone, Copy, Debug, PartialEq, Eq)]
pub struct OutOfRange;

impl fmt::Display for OutOfRange {
    fn fmt<W: fmt::Write>(&self, f: &mut fmt::Formatter<W>) -> fmt::Result {
        write!(f, "out of range")
    }
}
