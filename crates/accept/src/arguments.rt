//! The arguments of a record.
ghost use Rattle.std.specs.Prelude.{◌≡◌, ◌+◌, ◌^◌, ◌<◌};
ghost use Rattle.check_rules.specs.Verdict.{arguments_from};

use snapshot::reading::kind;

/// Whether n argument words stand from a place on.
pub fn arguments_from(words: &[u32], at: usize, n: usize) -> bool
    requires { at + n < 2 ^ 64 }
    ensures { result ≡ arguments_from words.now at n }
{
    for i in at..at + n {
        if words.len() <= i {
            return false;
        }
        if kind(words, i) != 0 {
            return false;
        }
    }
    true
}
