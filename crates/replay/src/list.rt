//! The stored list: the length of an input, the input, the length of its lines, the lines, and so on to the end.
ghost use Rattle.std.specs.Prelude.{◌≤◌, length, IfSome};

use crate::space::Space;
use printer::route::RoutedBytes;
use snapshot::ids::WordCount;
use std::io;
use streams::read_input;

// Bytes of an input, and of its lines, at most.
const INPUT: usize = 65600;

const LINES: usize = 8192;

// Reads the next part of the list, after its length in four bytes, the lowest first, to the front of the bytes, and answers its length; none at the end,
// or where it is too long.
fn next_part(rt: &impl Input, bytes: &mut [u8]) -> Option<usize>
    ensures { IfSome result (λ n. n ≤ length bytes.new) }
{
    let mut head = [0u8; 4];
    let Ok(4) = read_input(rt, &mut head) else {
        return None;
    };
    let n = u32::from_le_bytes(head) as usize;
    if bytes.len() < n {
        return None;
    }
    match read_input(rt, &mut bytes[..n]) {
        Ok(count) if count == n => Some(n),
        _ => None,
    }
}

// Whether the lines of the next input are as stored; none at the end.
// Not an equality of two values: both parts are read here, and the list may end.
fn compare_next(
    rt: &impl Input,
    bytes: &mut [u8],
    lines: &mut [u8],
    space: &mut Space,
) -> Option<bool> {
    let n = next_part(rt, bytes)?;
    let m = next_part(rt, lines)?;
    Some(space.prints(&bytes[..n], &lines[..m]))
}

/// Compares each input of the list, at most 100,000, and prints the places of those that differ, and how many there are.
pub fn run(rt: &(impl Input + Print)) -> io::Result<()> {
    let mut bytes = [0u8; INPUT];
    let mut lines = [0u8; LINES];
    let mut space = Space {
        words: [0; WordCount::SNAPSHOT],
        area: [0; WordCount::AREA],
        out: [0; RoutedBytes::LIMIT],
    };
    for k in 0..100_000 {
        match compare_next(rt, &mut bytes, &mut lines, &mut space) {
            Some(true) => {}
            Some(false) => println!(rt; "{k}: differs")?,
            None => return println!(rt; "{k} inputs compared"),
        }
    }
    Ok(())
}
