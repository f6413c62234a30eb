//! Prints the path of each question on standard input, a line each: a snapshot, then the questions.
#![tactic(auto)]

use printer::each::each_line;
use printer::route::RoutedBytes;
use printing::input::ByteCount;
use snapshot::ids::WordCount;
use std::process::ExitCode;
use streams::{read_input, say_unread, write_output};

/// The status of a run that could not read its input or write its answer.
const FAILED: u8 = 2;

// The buffers are arrays of this function: there is no memory to ask for that could be refused.
fn main(rt: HostRuntime) -> ExitCode {
    // One byte more than an input may have.
    let mut bytes = [0u8; ByteCount::INPUT + 1];
    let mut words = [0u32; WordCount::SNAPSHOT];
    let mut area = [0u32; WordCount::AREA];
    let mut out = [0u8; RoutedBytes::LIMIT];
    let Ok(n) = read_input(&rt, &mut bytes) else {
        say_unread(&rt);
        return ExitCode::from(FAILED);
    };
    let mut write = |line: &[u8]| write_output(&rt, line);
    // That a line cannot be written is said already.
    let written = each_line(&bytes[..n], &mut words, &mut area, &mut out, &mut write);
    if written.is_ok() {
        ExitCode::SUCCESS
    } else {
        ExitCode::from(FAILED)
    }
}
