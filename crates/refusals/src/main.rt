//! Tests of the check: the cases of the stored list, then the work area. Prints a line a case.
#![tactic(auto)]

mod area;
mod cases;
mod outcome;

use std::io;
use streams::read_as_far;

// Bytes of the list, at most.
const LIST: usize = 65536;

// A few words more than a snapshot may have.
const SPACE: usize = 16400;

fn main(rt: HostRuntime) -> io::Result<()> {
    let mut list = [0u8; LIST];
    let mut space = [0u32; SPACE];
    let mut area = [0u32; SPACE];
    let n = read_as_far(&rt, &mut list);
    cases::run(&rt, &list[..n], &mut space, &mut area)?;
    area::run(&rt, &mut area)
}
