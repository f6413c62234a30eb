//! Finding: among the records of a kind, and among a module and those around it.
ghost use Rattle.std.specs.Prelude.{◌≡◌, List, ◌∷◌, ℕ, ◌+◌, ◌*◌, ◌<◌, ◌≤◌};
ghost use Rattle.std.specs.Prelude.{Option, Some};
ghost use Rattle.snapshot.specs.Records.{Scope, scope_at};
ghost use Rattle.hir_def.specs.Entries.{entry_of};
ghost use Rattle.hir_def.specs.Finds.{first_some};
ghost use Rattle.hir_def.specs.Nameres.{steps};
ghost use Rattle.hir_def.specs.Tests.{Only, NextBy, FirstBy, Outwards};

use crate::{Place, Span};
use snapshot::ids::ModuleId;

/// The next record whose head passes the test, from the number k on.
#[inline]
pub fn next_where<F: Fn(usize) -> bool>(span: Span, k: usize, test: F) -> Option<Place>
    requires takes { (i : ℕ) → i < span.count → F.pre test (span.base + span.size * i) }
    ensures { NextBy (F.post test) span.size span.base span.count k result }
{
    for j in k..span.count {
        let h = span.base + span.size * j;
        if test(h) {
            return Some(Place { number: j, head: h });
        }
    }
    None
}

/// The next record whose head passes the test, from the number k on, of those from one number to another.
#[inline]
pub fn next_within<F: Fn(usize) -> bool>(
    span: Span,
    k: usize,
    low: usize,
    high: usize,
    test: F,
) -> Option<Place>
    requires takes { (i : ℕ) → i < span.count → F.pre test (span.base + span.size * i) }
    ensures { (owner : ℕ → ℕ) (c : ℕ) → ((i : ℕ) → i < span.count → owner (span.base + span.size * i) ≡ c → (low ≤ i) × (i < high))
        → NextBy (Only owner c (F.post test)) span.size span.base span.count k result }
{
    for i in k.max(low)..high.min(span.count) {
        let h = span.base + span.size * i;
        if test(h) {
            return Some(Place { number: i, head: h });
        }
    }
    None
}

/// The first record whose head passes the test.
#[inline]
pub fn first_where<F: Fn(usize) -> bool>(span: Span, test: F) -> Option<usize>
    requires takes { (i : ℕ) → i < span.count → F.pre test (span.base + span.size * i) }
    ensures { FirstBy (F.post test) span.size span.base span.count result }
{
    let next = next_where(span, 0, test)?;
    Some(next.head)
}

/// The first entry that is found in a module or, outwards, in those around it.
// `loop`: it climbs outwards, and ends where something is found or nothing is around.
pub fn nearest<F: Fn(ModuleId) -> Option<usize>, S: Fn(ModuleId) -> Option<ModuleId>>(
    from: ModuleId,
    find: F,
    outward: S,
) -> Option<usize>
    requires finds { (m : ModuleId) → m.0 ≤ from.0 → F.pre find m }
    requires steps { (m : ModuleId) → m.0 ≤ from.0 → S.pre outward m }
    requires falls { (m b : ModuleId) → m.0 ≤ from.0 → S.post outward m (Some b) → b.0 < m.0 }
    ensures { (W : List ℕ) (f : ℕ → Option Scope) (step : ℕ → ℕ) → Outwards (F.post find) (S.post outward) W f step from.0
        → entry_of scope_at W result ≡ first_some f (from.0 ∷ steps step from.0) }
{
    let mut m = from;
    loop {
        let e = find(m);
        if let Some(h) = e {
            return Some(h);
        }
        m = outward(m)?;
    }
}
