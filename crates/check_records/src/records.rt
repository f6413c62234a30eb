//! The step of a dependency, a child and a prelude; repeats of a record among the earlier ones.

pub mod children;
pub mod dependencies;
pub mod preludes;
pub mod repeats;
