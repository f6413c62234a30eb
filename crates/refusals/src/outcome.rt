//! The outcome of a check, as it is printed.
use accept::check::Refused;
use snapshot::layout::Layout;
use std::fmt;

#[derive(Clone, Copy)]
pub struct Outcome(pub Result<Layout, Refused>);

impl fmt::Display for Outcome {
    fn fmt<W: fmt::Write>(&self, f: &mut fmt::Formatter<W>) -> fmt::Result {
        match self.0 {
            Err(Refused { why, at }) => {
                let number = why.number();
                write!(f, "refused {number} at {at}")
            }
            Ok(_) => write!(f, "accepted"),
        }
    }
}
