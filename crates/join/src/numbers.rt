//! Where the names and definitions of the second part of a join go, as tables in the work area; the new number of anything of the second part.

pub mod inputs;
pub mod moved;
pub mod places;
pub mod tables;
