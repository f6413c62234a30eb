//! Puts the stored inputs to the printer and compares its lines with those of the Rust.
#![tactic(auto)]

mod list;
mod space;

use std::io;

fn main(rt: HostRuntime) -> io::Result<()> {
    list::run(&rt)
}
