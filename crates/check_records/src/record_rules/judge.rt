//! The order of a record's tests.
ghost use Rattle.std.specs.Prelude.{◌≡◌};
ghost use Rattle.snapshot.specs.Refusals.{fault_number};
ghost use Rattle.check_records.specs.record_rules.Stands.{number_of};

use snapshot::refusal::Refusal;

/// Refused by the first test that fails.
// Each flag is the result of a test of the record; so in `judge_crate`.
// Five flags, and no `?` after each test: `number_of`, the definition of the order, takes all five, and so each step has one exit to prove, not five.
pub fn judge(
    range: bool,
    defined: bool,
    repeated: bool,
    placed: bool,
    room: bool,
) -> Result<(), Refusal>
    ensures { fault_number result ≡ number_of range defined repeated placed room }
{
    if !range {
        return Err(Refusal::Range);
    }
    if !defined {
        return Err(Refusal::Undefined);
    }
    if repeated {
        return Err(Refusal::Repeated);
    }
    if !placed {
        return Err(Refusal::Place);
    }
    if !room {
        return Err(Refusal::Count);
    }
    Ok(())
}
