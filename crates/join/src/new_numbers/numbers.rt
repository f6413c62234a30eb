//! The tables of the new numbers, for any two inputs: before they are checked, both are words alone.
ghost use Rattle.snapshot.specs.Refusals.{fault_number};
ghost use Rattle.check_rules.specs.Verdict.{accept, verdict};
ghost use Rattle.join.specs.numbers.Parts.{part_of, Part};
ghost use Rattle.join.specs.new_numbers.New.{NumbersBy, NewNumbers};

use crate::numbers::inputs::Parts;
use crate::numbers::tables::number;
use accept::check::check;
use answer::area::clear;
use snapshot::ids::Area;
use snapshot::records::Records;
use snapshot::refusal::Refusal;

// Checks the second, and numbers its names and definitions.
fn number_second(first: &Records, second: &[u32], area: &mut Area) -> Result<(), Refusal>
    requires { Part first.now.words.now first.now.layout }
    ensures { NumbersBy (accept (part_of first.now.words.now)) (verdict second.now) area.new (fault_number result) }
{
    let layout = check(second, area)?;
    let second = Records {
        words: second,
        layout,
    };
    let parts = Parts {
        first: *first,
        second,
    };
    number(&parts, area);
    Ok(())
}

// Checks both, and numbers the second's.
fn number_checked(first: &[u32], second: &[u32], area: &mut Area) -> Result<(), Refusal>
    ensures { NumbersBy (verdict first.now) (verdict second.now) area.new (fault_number result) }
{
    let layout = check(first, area)?;
    let first = Records {
        words: first,
        layout,
    };
    number_second(&first, second, area)
}

/// Leaves in the work area the numbers that the names and definitions of the second snapshot have in the two joined, for `new_name` and
/// `new_definition`; its crates, maps and modules follow those of the first. Or answers why the call is refused, with the work
/// area as `find_path` leaves it: 20 a small work area, 30 to 36 and 43 the first snapshot, then the second.
pub fn new_numbers(first: &[u32], second: &[u32], area: &mut [u32]) -> Result<(), Refusal>
    ensures { NewNumbers first.now second.now area.old area.new (fault_number result) }
{
    let Some(front) = area.first_chunk_mut() else {
        return Err(Refusal::Area);
    };
    if let Err(why) = number_checked(first, second, front) {
        clear(front);
        return Err(why);
    }
    Ok(())
}
