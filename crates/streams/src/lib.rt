//! Standard input and output for the programs, and lists of test cases as text.
//! Uses no other crate.
#![tactic(auto)]

ghost use Rattle.std.specs.Prelude.{◌<◌, length, take, IfOk, OnOk, MatchResult};
ghost use Rattle.std.specs.Counts.{IsPrefixLen};
ghost use Rattle.std.specs.Io.KnownBytes.{Appends, Consumes, IsAtEnd};

pub mod case_text;

use std::io;
use std::io::{Read, Write};

/// A read failed before the input's end, after so many bytes.
#[derive(Clone, Copy, Debug, PartialEq, Eq)]
pub struct Unread {
    pub count: usize,
}

/// Reads until the bytes are full, the input ends or a read fails: what was read stands at the front, and where no read failed
/// and the bytes are not full, the input is at its end.
// `while`: each read tells how far it came. `read_exact` does not tell how much there was, where the input ends.
pub fn read_from<R: Read>(reader: &mut R, bytes: &mut [u8]) -> Result<usize, Unread>
    ensures count { MatchResult result (λ n. IsPrefixLen n bytes.new) (λ e. IsPrefixLen e.count bytes.new) }
    ensures bytes { MatchResult result
        (λ n. Consumes (R.remaining reader.old) (R.remaining reader.new) (take n bytes.new))
        (λ e. Consumes (R.remaining reader.old) (R.remaining reader.new) (take e.count bytes.new)) }
    ensures end { IfOk result (λ n. n < length bytes.new → IsAtEnd (R.remaining reader.new)) }
{
    let mut count = 0;
    while count < bytes.len() {
        match reader.read(&mut bytes[count..]) {
            Ok(0) => return Ok(count),
            Ok(more) => count += more,
            Err(_) => return Err(Unread { count }),
        }
    }
    Ok(count)
}

/// Reads standard input until the bytes are full, the input ends or a read fails.
pub fn read_input(rt: &impl Input, bytes: &mut [u8]) -> Result<usize, Unread>
    ensures { MatchResult result (λ n. IsPrefixLen n bytes.new) (λ e. IsPrefixLen e.count bytes.new) }
{
    read_from(&mut rt.reader(), bytes)
}

/// Reads standard input as `read_input` does, and answers how many bytes stand at the front, before a failure too.
pub fn read_as_far(rt: &impl Input, bytes: &mut [u8]) -> usize
    ensures { IsPrefixLen result bytes.new }
{
    read_input(rt, bytes).unwrap_or_else(|unread| unread.count)
}

/// Says on standard error that standard input cannot be read.
pub fn say_unread(rt: &impl Eprint) {
    let _ = eprintln!(rt; "standard input cannot be read: nothing is known of it");
}

/// Writes a text whole, or fails.
// `write_all` alone; the function stays for its clause, in terms of what stands in the writer.
pub fn write_to<W: Write>(writer: &mut W, text: &[u8]) -> io::Result<()>
    ensures { OnOk result (Appends (W.contents writer.old) (W.contents writer.new) text.now) }
{
    writer.write_all(text)
}

/// Writes a text to standard output whole, or says on standard error that it could not.
// `write_all` does not say on standard error that it failed.
pub fn write_output(rt: &(impl Print + Eprint), text: &[u8]) -> io::Result<()> {
    let written = write_to(&mut io::writer(rt), text);
    if written.is_err() {
        let _ = eprintln!(rt; "standard output cannot be written: the answer is not whole");
    }
    written
}
