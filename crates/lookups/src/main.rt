//! Tests of the lookups and of visibility: the cases of the stored list. Prints a line a query.
#![tactic(auto)]

mod answer;
mod asked;
mod cases;
mod query;

use snapshot::ids::WordCount;
use std::io;
use streams::read_as_far;

// Bytes of the list, at most.
const LIST: usize = 65536;

// As that of `refusals`, which has more words in its area and a second part: what they share is reading, and stands in `streams`.
fn main(rt: HostRuntime) -> io::Result<()> {
    let mut list = [0u8; LIST];
    let mut words = [0u32; WordCount::SNAPSHOT];
    let mut queries = [0u32; WordCount::SNAPSHOT];
    let mut area = [0u32; WordCount::AREA];
    let n = read_as_far(&rt, &mut list);
    cases::run(&rt, &list[..n], &mut words, &mut queries, &mut area)
}
