//! The answer, made of a refusal or of what was found.
ghost use Rattle.std.specs.Prelude.{◌≡◌, ℕ, ◌≤◌};
ghost use Rattle.std.specs.Prelude.{Some};
ghost use Rattle.snapshot.specs.Refusals.{refusal_number};
ghost use Rattle.snapshot.specs.PathKinds.{path_kind_number};
ghost use Rattle.snapshot.specs.Records.{Snapshot};
ghost use Rattle.nameable.specs.Paths.{Path, names_in, route_of};
ghost use Rattle.nameable.specs.Breadth.{names_limit, up_to};
ghost use Rattle.told_paths.specs.Tells.{padded, tell};
ghost use Rattle.answer.specs.any_answer.Outcomes.{outcome_number};
ghost use Rattle.answer.specs.any_answer.Any.{any_without, any_refused, any_reported};

use crate::any_answer::AnyReport;
use snapshot::ids::PathKind;
use snapshot::refusal::Refusal;
use told_paths::ToldPath;
use told_paths::paths::NameCount;

/// Outcomes.
// The C interface: four numbers of a report, whose path stands in fields beside them; an `Option` or a `Result` has two cases.
#[derive(Clone, Copy)]
pub enum AnyOutcome {
    Found,
    Nowhere,
    Refused,
    Longer,
}

impl AnyOutcome {
    fn number(self) -> usize
        ensures { result ≡ outcome_number self }
    {
        self as usize
    }
}

/// An outcome without a path.
pub(crate) fn without(outcome: AnyOutcome, number: usize) -> AnyReport
    ensures { result ≡ any_without (outcome_number outcome) number }
{
    let names = [0usize; 16];
    let route = [0usize; 16];
    AnyReport {
        outcome: outcome.number(),
        number: number,
        kind: 0,
        supers: 0,
        names: names,
        count: 0,
        route: route,
    }
}

/// A refusal.
pub(crate) fn refused(why: Refusal) -> AnyReport
    ensures { result ≡ any_refused (refusal_number why) }
{
    without(AnyOutcome::Refused, why.number())
}

// The kind as the report has it.
fn kind_number(kind: PathKind) -> usize
    ensures { result ≡ path_kind_number kind }
{
    kind as usize
}

/// The path that was found, with its route.
pub(crate) fn reported(t: ToldPath, route: [usize; 16]) -> AnyReport
    ensures { (s : Snapshot) (from ns : ℕ) (p : Path) → t ≡ tell p
        → (names_in p ≤ names_limit → route ≡ padded (route_of s from ns p))
        → result ≡ any_reported s from ns (up_to names_limit (Some p)) }
{
    if NameCount::LIMIT < t.count {
        return without(AnyOutcome::Longer, 0);
    }
    let names = t.names;
    AnyReport {
        outcome: AnyOutcome::Found as usize,
        number: 0,
        kind: kind_number(t.kind),
        supers: t.supers,
        names: names,
        count: t.count,
        route: route,
    }
}
