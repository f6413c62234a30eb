//! What an input is refused for.
ghost use Rattle.std.specs.Prelude.{◌≡◌};
ghost use Rattle.snapshot.specs.Refusals.{fault_number};
ghost use Rattle.printer.specs.Printed.{input_fault};

use printing::input::ByteCount;
use snapshot::refusal::Refusal;

/// What an input is refused for before it is read: 40 too many bytes, 41 a rest of 1 to 3 bytes.
pub fn input_fault(bytes: &[u8]) -> Result<(), Refusal>
    ensures { fault_number result ≡ input_fault bytes.now }
{
    if ByteCount::INPUT < bytes.len() {
        return Err(Refusal::Bytes);
    }
    if bytes.len() % 4 != 0 {
        return Err(Refusal::Rest);
    }
    Ok(())
}
