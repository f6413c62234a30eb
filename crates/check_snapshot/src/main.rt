//! Checks a snapshot on standard input: prints how many records of each kind it has, or why it is refused.
#![tactic(auto)]

mod report;
mod verdict;

use printing::input::ByteCount;
use printing::wording::TextBytes;
use snapshot::ids::WordCount;
use std::process::ExitCode;
use streams::{read_input, say_unread, write_output};

/// The status of a run that could not read its input or write its answer.
const FAILED: u8 = 2;

// The buffers of `path_printer`, which writes line by line and needs another one: handed out by a function they would be a struct of four.
// Arrays, as there: no memory is asked for.
fn main(rt: HostRuntime) -> ExitCode {
    // One byte more than an input may have.
    let mut bytes = [0u8; ByteCount::INPUT + 1];
    let mut words = [0u32; WordCount::SNAPSHOT];
    let mut area = [0u32; WordCount::AREA];
    let mut out = [0u8; TextBytes::LIMIT];
    let Ok(n) = read_input(&rt, &mut bytes) else {
        say_unread(&rt);
        return ExitCode::from(FAILED);
    };
    let m = report::report(&bytes[..n], &mut words, &mut area, &mut out);
    // That the output cannot be written is said already.
    let written = write_output(&rt, &out[..m]);
    if written.is_ok() {
        ExitCode::SUCCESS
    } else {
        ExitCode::from(FAILED)
    }
}
