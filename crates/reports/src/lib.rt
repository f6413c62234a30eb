//! Questions that come in as words, and reports, made and written to words.
//! Uses the definitions and theorems of the search.
//! Reports: made of a refusal or of what a search found, and written to words.
//! A report is words for C in a slice that C lends, so it is written by hand: there is no heap, and a Display would make text.
#![tactic(auto)]

ghost use Rattle.std.specs.Prelude.{◌≡◌, map, ◌++◌, ◌+◌, ◌≤◌, length, take, drop};
ghost use Rattle.snapshot.specs.Records.{Snapshot};
ghost use Rattle.find_path_choice.specs.Given.{given};
ghost use Rattle.find_path_spec.specs.declared.Query.{Query};
ghost use Rattle.find_path_spec.specs.Report.{misleads as misleads_in, outcome_by, refused as refused_of, reported as reported_of};
ghost use Rattle.find_path_spec.specs.Charged.{out_of};
ghost use Rattle.reports.specs.Outcomes.{outcome_number};
ghost use Rattle.reports.specs.Written.{low as low_of, Written};

pub mod questions;

use find_path_spec::{Found, Outcome, Report};

// The number of an outcome.
fn number(outcome: Outcome) -> usize
    ensures { result ≡ outcome_number outcome }
{
    outcome as usize
}

/// A refusal: all else is zero.
// A number, since a report is words for C; 0 stands in a blank one.
pub fn refused(number: usize) -> Report
    ensures { result ≡ refused_of number }
{
    let names = [0usize; 16];
    let route = [0usize; 17];
    Report {
        outcome: Outcome::Refused as usize,
        number: number,
        kind: 0,
        names: names,
        count: 0,
        charges: 0,
        empty: 0,
        left: 0,
        sought: 0,
        route: route,
        steps: 0,
    }
}

// `misleads` is a test's result, here and in `reported`.
fn outcome(misleads: bool, found: bool) -> Outcome
    ensures { outcome_number result ≡ outcome_by misleads found }
{
    if misleads {
        return Outcome::Misleads;
    }
    if found {
        return Outcome::Found;
    }
    Outcome::None
}

/// What a search found and how, whether that misleads, what it was charged, and whether, and where first, it found the tank empty.
pub fn reported(f: Found, misleads: bool) -> Report
    ensures { (s : Snapshot) (q : Query) → misleads ≡ misleads_in s q (given f.choice) → result ≡ reported_of s q (out_of f) }
{
    let t = f.meter;
    let names = [0usize; 16];
    let route = [0usize; 17];
    let mut r = Report {
        outcome: number(outcome(misleads, f.choice.is_some())),
        number: 0,
        kind: 0,
        names: names,
        count: 0,
        charges: t.spent,
        empty: usize::from(t.empty),
        left: t.left,
        sought: t.sought,
        route: route,
        steps: 0,
    };
    let Some(c) = f.choice else {
        return r;
    };
    let names = c.names;
    let route = c.route;
    r.kind = c.kind;
    r.names = names;
    r.count = c.count;
    r.route = route;
    r.steps = c.steps;
    r
}

/// A number of words.
#[derive(Clone, Copy)]
pub struct ReportWords;

impl ReportWords {
    /// Words of a report.
    pub const COUNT: usize = 42;
}

// A number in a word: its lowest 32 bits.
// A cast alone asks for a number below 2^32, which a report need not have; C gets the lowest bits.
fn low(x: usize) -> u32
    ensures { result ≡ low_of x }
{
    (x % 4294967296) as u32
}

// Writes numbers from a place on.
fn put_words(out: &mut [u32], at: usize, numbers: &[usize])
    requires { at + length numbers.now ≤ length out.old }
    ensures { out.new ≡ take at out.old ++ (map low_of numbers.now ++ drop
        (at + length numbers.now) out.old) }
{
    for (i, n) in numbers.iter().enumerate() {
        out[at + i] = low(*n);
    }
}

/// Writes a report, a word a field, and answers true; where the words are too few, it writes nothing and answers false.
pub fn write_report(report: Report, out: &mut [u32]) -> bool
    ensures { Written report out.old out.new result }
{
    if out.len() < ReportWords::COUNT {
        return false;
    }
    let head = [report.outcome, report.number, report.kind];
    put_words(out, 0, &head);
    let names = report.names;
    put_words(out, 3, &names);
    let rest = [
        report.count,
        report.charges,
        report.empty,
        report.left,
        report.sought,
        report.steps,
    ];
    put_words(out, 19, &rest);
    let route = report.route;
    put_words(out, 25, &route);
    true
}
