//! The cases of the list, a line each: a name, a space and the words. A name is any bytes.
use crate::outcome::Outcome;
use accept::check::check;
use std::io;
use streams::case_text::text::split_once;
use streams::case_text::words::read_words;

// The words of the cases before stay in the space: a star that goes back by 0 reads them.
fn run_case(rt: &impl Print, line: &[u8], space: &mut [u32], area: &mut [u32]) -> io::Result<()> {
    let Some((name, text)) = split_once(line, b' ') else {
        return Ok(());
    };
    let n = read_words(text, space).min(space.len());
    let outcome = Outcome(check(&space[..n], area));
    rt.write_all(name)?;
    println!(rt; " {outcome}")
}

/// Checks each case of the list; bytes after the last line end are none.
pub fn run(rt: &impl Print, text: &[u8], space: &mut [u32], area: &mut [u32]) -> io::Result<()> {
    for line in text.split_inclusive(|b| *b == b'\n') {
        if line.ends_with(b"\n") {
            run_case(rt, line, space, area)?;
        }
    }
    Ok(())
}
