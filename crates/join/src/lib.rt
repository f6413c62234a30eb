//! Two snapshots joined, for every input: where the numbers go, the words, and the new number of anything of the second.
//! Uses the entry points of `answer` and the definitions of `join_rules`.
//! Two snapshots joined, in the target that the caller lends. Both are checked in one work area: the second check writes over the tables of the
//! first, of which only the words and the layout are needed after it. Before they are checked, both are words alone.
#![tactic(auto)]

ghost use Rattle.std.specs.Prelude.{◌≡◌, length};
ghost use Rattle.check_rules.specs.Verdict.{accept, verdict};
ghost use Rattle.answer.specs.counts.Counts.{told};
ghost use Rattle.join_rules.specs.Joined.{join_in, join_by};
ghost use Rattle.join.specs.numbers.Parts.{part_of, Part, ready_in, first_in, second_in};
ghost use Rattle.join.specs.Joins.{Joins, JoinsIn, fits_in};

pub mod new_numbers;
pub mod numbers;
pub mod records;

use crate::numbers::inputs::Parts;
use crate::numbers::tables::number;
use crate::records::write::put_kinds;
use accept::check::check;
use answer::area::clear;
use snapshot::ids::{Area, Crate, DefinitionId, ModuleId, Name, WordCount};
use snapshot::records::Records;
use snapshot::refusal::Refusal;

// Whether so many words and records pass no limit, and the words fit.
fn fits(
    words: usize,
    names: usize,
    crates: usize,
    modules: usize,
    definitions: usize,
    room: usize,
) -> bool
    ensures { result ≡ fits_in words names crates modules definitions room }
{
    if WordCount::SNAPSHOT < words {
        return false;
    }
    if Name::LIMIT < names {
        return false;
    }
    if Crate::LIMIT < crates {
        return false;
    }
    if ModuleId::LIMIT < modules {
        return false;
    }
    if DefinitionId::LIMIT < definitions {
        return false;
    }
    words <= room
}

// Joins two accepted snapshots: the words are counted first, then written where they fit. Answers the count.
fn join_accepted(parts: &Parts, area: &mut [u32], target: &mut [u32]) -> Result<usize, Refusal>
    requires { ready_in parts.now area.old }
    ensures { Joins target.old (join_in (length target.old) (first_in parts.now)
        (second_in parts.now)) target.new (told 0 result) }
{
    let n = number(parts, area);
    let count = put_kinds(parts, area, target, false);
    let l = parts.first.layout;
    let m = parts.second.layout;
    let room = target.len();
    if !fits(
        count,
        l.names + n.names,
        l.crates + m.crates,
        l.modules + m.modules,
        l.definitions + n.definitions,
        room,
    ) {
        return Err(Refusal::Join);
    }
    put_kinds(parts, area, target, true);
    Ok(count)
}

// Checks the second, and joins.
fn join_second(
    first: &Records,
    second: &[u32],
    area: &mut Area,
    target: &mut [u32],
) -> Result<usize, Refusal>
    requires { Part first.now.words.now first.now.layout }
    ensures { Joins target.old (join_by (length target.old) (accept (part_of first.now.words.now))
        (verdict second.now)) target.new (told 0 result) }
{
    let layout = check(second, area)?;
    let second = Records {
        words: second,
        layout,
    };
    let parts = Parts {
        first: *first,
        second,
    };
    join_accepted(&parts, area, target)
}

// Checks both, and joins.
fn join_checked(
    first: &[u32],
    second: &[u32],
    area: &mut Area,
    target: &mut [u32],
) -> Result<usize, Refusal>
    ensures { Joins target.old (join_by (length target.old) (verdict first.now)
        (verdict second.now)) target.new (told 0 result) }
{
    let layout = check(first, area)?;
    let first = Records {
        words: first,
        layout,
    };
    join_second(&first, second, area, target)
}

/// Writes the words of the two snapshots joined to the target, and answers how many these are; what stands past them stays. Or answers why
/// the call is refused, with the target unchanged: 20 a small work area, 30 to 36 and 43 the first snapshot, then the second, 51 a result
/// that passes a limit or does not fit the target. The work area is left as `find_path` leaves it.
pub fn join(
    first: &[u32],
    second: &[u32],
    area: &mut [u32],
    target: &mut [u32],
) -> Result<usize, Refusal>
    ensures { JoinsIn first.now second.now area.old target.old target.new
        area.new (told 0 result) }
{
    let Some(front) = area.first_chunk_mut() else {
        return Err(Refusal::Area);
    };
    let r = join_checked(first, second, front, target);
    clear(front);
    r
}
