//! The order of a crate's tests.
ghost use Rattle.std.specs.Prelude.{◌≡◌};
ghost use Rattle.snapshot.specs.Refusals.{fault_number};
ghost use Rattle.check_records.specs.record_rules.Stands.{crate_number_of};

use snapshot::refusal::Refusal;

/// Refused by the first test of a crate that fails.
// Each flag is the result of a test of the record, as in `judge`.
pub fn judge_crate(range: bool, edition: bool, room: bool) -> Result<(), Refusal>
    ensures { fault_number result ≡ crate_number_of range edition room }
{
    if !range {
        return Err(Refusal::Range);
    }
    if !edition {
        return Err(Refusal::Edition);
    }
    if !room {
        return Err(Refusal::Count);
    }
    Ok(())
}
