//! One record, by its kind.
ghost use Rattle.std.specs.Prelude.{◌≡◌, List, ◌+◌, get_or};
ghost use Rattle.snapshot.specs.Kinds.{kind_number};
ghost use Rattle.snapshot.specs.Words.{kind_of, arguments_at};
ghost use Rattle.snapshot.specs.Records.{Map};
ghost use Rattle.snapshot.specs.Layouts.{snap_with};
ghost use Rattle.check_rules.specs.Verdict.{follows as follows_of, record_step, step_at};
ghost use Rattle.check_records.specs.record_rules.Stands.{Ready, Here, Stands, Answered};

use crate::arguments::arguments_from;
use snapshot::kind::{Kind, arguments};
use snapshot::layout::Layout;
use snapshot::reading::kind;
use snapshot::refusal::Refusal;

// Whether a record of a kind may follow one of the last kind.
fn follows(last: usize, kind: Kind) -> bool
    ensures { result ≡ follows_of last (kind_number kind) }
{
    let again = (last == Kind::Module as usize) & (kind == Kind::Map);
    (last <= kind as usize) | again
}

// The record of a known kind.
fn by_kind(
    words: &[u32],
    area: &mut [u32],
    l: Layout,
    at: usize,
    kind: Kind,
) -> Result<Layout, Refusal>
    requires ready { Ready words.now area.old l at (at + 1 + arguments_at words.now at) }
    requires of_kind { kind_number kind ≡ kind_of (get_or words.now at 0) }
    ensures { (ms : List Map) → Stands words.now area.old (kind_number kind) at l ms
        → Answered words.now area.new (kind_number kind) (at + 1 + arguments_at words.now at)
        (record_step (kind_number kind) words.now at (snap_with words.now area.old l ms)) result }
{
    match kind {
        Kind::Name => check_records::record_rules::names::step(words, area, l, at),
        Kind::Crate => check_records::module_records::crates::step(words, area, l, at),
        Kind::Dependency => check_records::records::dependencies::step(words, area, l, at),
        Kind::Map => check_records::module_records::maps::step(words, area, l, at),
        Kind::Module => check_records::module_records::modules::step(words, area, l, at),
        Kind::Child => check_records::records::children::step(words, area, l, at),
        Kind::Prelude => check_records::records::preludes::step(words, area, l, at),
        Kind::Definition => check_records::item_records::definitions::step(words, area, l, at),
        Kind::Scope => check_records::item_records::scopes::step(words, area, l, at),
        Kind::Import => check_records::item_records::imports::step(words, area, l, at),
        Kind::Extern => check_records::item_records::externs::step(words, area, l, at),
        Kind::Member => check_records::item_records::members::step(words, area, l, at),
    }
}

/// The record at a place, after one of the last kind.
// `last` is a number, 0 before the first record: the definition `follows_of` compares numbers, and an `Option<Kind>` would be made one for it.
pub fn turn(
    words: &[u32],
    area: &mut [u32],
    l: Layout,
    at: usize,
    last: usize,
) -> Result<Layout, Refusal>
    requires { Here words.now area.old l at }
    ensures { (ms : List Map) → Stands words.now area.old last at l ms
        → Answered words.now area.new (kind_of (get_or words.now at 0))
        (at + 1 + arguments_at words.now at)
        (step_at words.now at last (snap_with words.now area.old l ms)) result }
{
    let Some(its) = Kind::of(kind(words, at)) else {
        return Err(Refusal::Form);
    };
    if !follows(last, its) {
        return Err(Refusal::Form);
    }
    let n = arguments(words, at);
    if !arguments_from(words, at + 1, n) {
        return Err(Refusal::Form);
    }
    by_kind(words, area, l, at, its)
}
