//! The printed line of a report, as bytes.
//! Uses the definitions of the search, the keywords and the rules.
//! The line of a report.
//! In bytes that C lends, for want of a heap; what each piece adds at most is a clause, which a Display does not have.
#![tactic(auto)]

ghost use Rattle.std.specs.Prelude.{◌++◌, ℕ, ◌+◌, ◌≤◌, length};
ghost use Rattle.snapshot.specs.Limits.{line_limit};
ghost use Rattle.snapshot.specs.Records as lists;
ghost use Rattle.accept.specs.Opened.{snap_in};
ghost use Rattle.printing.specs.Output.{Put};
ghost use Rattle.find_path_spec.specs.Line.{bytes_of, decimal, joined, line_parts, line_in};
ghost use Rattle.find_path_spec.specs.Report.{refused};

mod edition;
mod path;
pub mod text;

use crate::edition::edition_in;
use crate::path::put_path;
use crate::text::put_number;
use accept::opened::Snapshot;
use find_path_spec::{Outcome, Report};
use printing::output::put;
use snapshot::ids::ModuleId;

/// A number of bytes.
#[derive(Clone, Copy)]
pub struct LineBytes;

impl LineBytes {
    /// Bytes of a line and its end, at most: an outcome, a prefix, 16 names of 255 bytes, `r#` included, with joints, two numbers.
    pub const LIMIT: usize = 4169;
}

// Puts the charges and the flag, each after a blank.
fn put_meter(out: &mut [u8], at: usize, charges: usize, empty: usize) -> usize
    requires { at + 42 ≤ length out.old }
    ensures put { Put out.old at (bytes_of " " ++ (decimal charges ++ (bytes_of " " ++ decimal empty))) out.new result }
    ensures upper_bound { result ≤ at + 42 }
{
    let a = put(out, at, b" ");
    let b = put_number(out, a, charges);
    let c = put(out, b, b" ");
    put_number(out, c, empty)
}

// Puts the outcome, and after a blank the path, `-` or the number.
fn put_outcome(out: &mut [u8], db: &Snapshot, edition: usize, r: Report) -> usize
    requires { (4126 ≤ length out.old) × (r.count ≤ 16) }
    ensures put { Put out.old 0 (joined (bytes_of " ") (line_parts (snap_in db.now) edition r))
        out.new result }
    ensures upper_bound { result ≤ 4126 }
{
    let names = r.names;
    if r.outcome == Outcome::Found as usize {
        let a = put(out, 0, b"found ");
        return put_path(out, a, db, edition, r.kind, &names[..r.count]);
    }
    if r.outcome == Outcome::None as usize {
        return put(out, 0, b"none -");
    }
    if r.outcome == Outcome::Misleads as usize {
        let a = put(out, 0, b"misleads ");
        return put_path(out, a, db, edition, r.kind, &names[..r.count]);
    }
    let b = put(out, 0, b"refused ");
    put_number(out, b, r.number)
}

/// Puts the line of a report, as it is written in a module, at the front, without its end, and answers its length.
pub fn put_bare(out: &mut [u8], db: &Snapshot, from: ModuleId, r: Report) -> usize
    requires { (4168 ≤ length out.old) × (r.count ≤ 16) }
    ensures put { Put out.old 0 (line_in (snap_in db.now) from.0 r) out.new result }
    ensures upper_bound { result ≤ 4168 }
{
    let edition = edition_in(db, from);
    let a = put_outcome(out, db, edition, r);
    put_meter(out, a, r.charges, r.empty)
}

/// Puts the line of a report, as it is written in a module, and its end at the front, and answers its length.
pub fn put_line(out: &mut [u8], db: &Snapshot, from: ModuleId, r: Report) -> usize
    requires { (line_limit ≤ length out.old) × (r.count ≤ 16) }
    ensures { Put out.old 0 (line_in (snap_in db.now) from.0 r ++ bytes_of "\n")
        out.new result }
{
    let a = put_bare(out, db, from, r);
    put(out, a, b"\n")
}

/// Puts the line of a refusal and its end at the front, and answers its length.
// By its number, which a report has as a word for C.
pub fn put_refusal(out: &mut [u8], number: usize) -> usize
    requires { line_limit ≤ length out.old }
    ensures { (s : lists.Snapshot) (from : ℕ) → Put out.old 0 (line_in s from (refused number) ++ bytes_of "\n") out.new result }
{
    let a = put(out, 0, b"refused ");
    let b = put_number(out, a, number);
    put(out, b, b" 0 0\n")
}
