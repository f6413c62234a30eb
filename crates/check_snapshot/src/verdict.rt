//! The check of a snapshot's bytes.
ghost use Rattle.std.specs.Prelude.{◌≡◌, ◌≤◌, length};
ghost use Rattle.snapshot.specs.Limits.{word_limit, area_limit};
ghost use Rattle.accept.specs.Post.{outcome};
ghost use Rattle.check_snapshot.specs.Verdict.{words_of, verdict_of};

use accept::check::{Refused, check};
use printing::input::{ByteCount, words_in};
use snapshot::ids::WordCount;
use snapshot::layout::Layout;
use snapshot::refusal::Refusal;

/// The check of the bytes, by way of their words: 40 and 41 come first.
#[tactic(auto, using(crate::proofs::Laws::verdict_long, crate::proofs::Laws::verdict_rest))]
pub fn verdict(bytes: &[u8], words: &mut [u32], area: &mut [u32]) -> Result<Layout, Refused>
    requires { (word_limit ≤ length words.old) × (area_limit ≤ length area.old) }
    ensures { outcome (words_of bytes.now) area.new result ≡ verdict_of bytes.now }
{
    if ByteCount::INPUT < bytes.len() {
        return Err(Refused {
            why: Refusal::Bytes,
            at: WordCount::SNAPSHOT,
        });
    }
    let n = bytes.len() / 4;
    if bytes.len() % 4 != 0 {
        return Err(Refused {
            why: Refusal::Rest,
            at: n,
        });
    }
    words_in(bytes, words, n);
    check(&words[..n], area)
}
