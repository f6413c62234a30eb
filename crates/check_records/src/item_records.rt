//! The step of a definition, a scope, an import, an extern and a member.

pub mod definitions;
pub mod externs;
pub mod imports;
pub mod members;
pub mod scopes;
