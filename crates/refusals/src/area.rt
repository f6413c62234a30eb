//! The work area: what the check leaves alone.
use crate::outcome::Outcome;
use accept::check::check;
use std::io;

// What each word of an area is before a check.
const FILL: u32 = 7;

// An area of so many words, of which none may change from a place on.
#[derive(Clone, Copy)]
struct Case<'a> {
    name: &'a str,
    size: usize,
    kept_from: usize,
    words: &'a [u32],
}

fn run_case(rt: &impl Print, case: Case, area: &mut [u32]) -> io::Result<()> {
    area.fill(FILL);
    let Some(part) = area.get_mut(..case.size) else {
        return Ok(());
    };
    let name = case.name;
    let outcome = Outcome(check(case.words, part));
    println!(rt; "{name} {outcome}")?;
    let changed = area
        .iter()
        .skip(case.kept_from)
        .filter(|w| **w != FILL)
        .count();
    println!(rt; "{name} changed {changed}")
}

/// Areas that are too small, then large enough, with good words and with bad ones.
pub fn run(rt: &impl Print, area: &mut [u32]) -> io::Result<()> {
    let good = &[
        0x10000001, 0x61, 0x20000000, 2021, 0x40000000, 0, 0, 0x50000000, 0,
    ];
    let bad = &good[..5];
    let cases = [
        Case {
            name: "area-0",
            size: 0,
            kept_from: 0,
            words: good,
        },
        Case {
            name: "area-16383",
            size: 16383,
            kept_from: 0,
            words: good,
        },
        Case {
            name: "area-16384",
            size: 16384,
            kept_from: 16384,
            words: good,
        },
        Case {
            name: "area-16400",
            size: 16400,
            kept_from: 16384,
            words: good,
        },
        Case {
            name: "area-16383-bad-words",
            size: 16383,
            kept_from: 0,
            words: bad,
        },
        Case {
            name: "area-16400-bad-words",
            size: 16400,
            kept_from: 16384,
            words: bad,
        },
    ];
    for case in cases {
        run_case(rt, case, area)?;
    }
    Ok(())
}
