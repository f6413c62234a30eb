//! The printed line with its route.
//! The route of a report, as text.
//! As the line itself, it is put into bytes that C lends: the library has no heap for a String.

ghost use Rattle.std.specs.Prelude.{[], ◌++◌, ◌+◌, ◌≤◌, length, get_or, take};
ghost use Rattle.snapshot.specs.Limits.{routed_limit};
ghost use Rattle.accept.specs.Opened.{snap_in};
ghost use Rattle.printing.specs.Output.{Put};
ghost use Rattle.find_path_choice.specs.StepRules.{rule_number};
ghost use Rattle.find_path_spec.specs.Line.{bytes_of, rule_names, step_text, steps_text, route_text, routed_line_in};

pub mod lines;

use accept::opened::Snapshot;
use find_path_choice::choices::StepRule;
use find_path_spec::{Outcome, Report};
use line::put_bare;
use line::text::put_number;
use printing::output::put;
use snapshot::ids::ModuleId;

/// A number of bytes.
#[derive(Clone, Copy)]
pub struct RoutedBytes;

impl RoutedBytes {
    /// Bytes of a line with its route and its end, at most: the line, and 17 steps of a blank, a rule, `@` and a number.
    pub const LIMIT: usize = 4662;
}

// Puts the name of a rule.
fn put_rule(out: &mut [u8], at: usize, rule: StepRule) -> usize
    requires { at + 7 ≤ length out.old }
    ensures put { Put out.old at (get_or rule_names (rule_number rule) []) out.new result }
    ensures upper_bound { result ≤ at + 7 }
{
    match rule {
        StepRule::Builtin => put(out, at, b"builtin"),
        StepRule::Scope => put(out, at, b"scope"),
        StepRule::Prelude => put(out, at, b"prelude"),
        StepRule::Extern => put(out, at, b"extern"),
        StepRule::Keyword => put(out, at, b"keyword"),
        StepRule::Variant => put(out, at, b"variant"),
        StepRule::Local => put(out, at, b"local"),
        StepRule::Import => put(out, at, b"import"),
    }
}

// Puts a step after a blank: its rule, and the offset of its record.
// Four pieces one after the other, as in `line::put_meter` and `printing::wording::put_counts`: the pieces differ, and nothing else is there.
fn put_step(out: &mut [u8], at: usize, step: usize) -> usize
    requires { at + 29 ≤ length out.old }
    ensures put { Put out.old at (bytes_of " " ++ step_text step) out.new result }
    ensures upper_bound { result ≤ at + 29 }
{
    let a = put(out, at, b" ");
    let b = put_rule(out, a, StepRule::of_step(step));
    let c = put(out, b, b"@");
    put_number(out, c, step / 8)
}

// Puts the steps of a route, each after a blank.
fn put_steps(out: &mut [u8], at: usize, route: &[usize]) -> usize
    requires { (at + 493 ≤ length out.old) × (length route.now ≤ 17) }
    ensures put { Put out.old at (steps_text route.now) out.new result }
    ensures upper_bound { result ≤ at + 493 }
{
    let mut to = at;
    for step in route {
        to = put_step(out, to, *step);
    }
    to
}

// Puts the steps of a path that is found, misleading or not.
fn put_route(out: &mut [u8], at: usize, r: Report) -> usize
    requires { (at + 493 ≤ length out.old) × (r.steps ≤ 17) }
    ensures put { Put out.old at (route_text r) out.new result }
    ensures upper_bound { result ≤ at + 493 }
{
    let found = (r.outcome == Outcome::Found as usize) | (r.outcome == Outcome::Misleads as usize);
    if !found {
        return at;
    }
    let route = r.route;
    put_steps(out, at, &route[..r.steps])
}

/// Puts the line of a report, as it is written in a module, with its route and its end at the front, and answers its length.
// Three pieces one after the other, as in `put_refusal` of `line` and of `wording`: the pieces differ, and nothing else is there.
pub fn put_routed(out: &mut [u8], db: &Snapshot, from: ModuleId, r: Report) -> usize
    requires { (routed_limit ≤ length out.old) × (r.count ≤ 16) × (r.steps ≤ 17) }
    ensures { Put out.old 0 (routed_line_in (snap_in db.now) from.0 r ++ bytes_of "\n")
        out.new result }
{
    let a = put_bare(out, db, from, r);
    let b = put_route(out, a, r);
    put(out, b, b"\n")
}
