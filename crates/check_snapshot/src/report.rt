//! The text that is printed.
//! It is put into a buffer that `main` makes once: nothing here takes memory, and the clause says each byte.
ghost use Rattle.std.specs.Prelude.{◌≡◌, ◌≤◌, length, take, drop};
ghost use Rattle.snapshot.specs.Limits.{word_limit, area_limit};
ghost use Rattle.snapshot.specs.Refusals.{refusal_number};
ghost use Rattle.printing.specs.wording.Text.{text_limit};
ghost use Rattle.std.specs.Counts.{IsPrefixLen};
ghost use Rattle.printing.specs.Output.{Put};
ghost use Rattle.check_snapshot.specs.Verdict.{verdict_of};
ghost use Rattle.check_snapshot.specs.Text.{asks, asks_at, refused_text, text_of};

use crate::verdict::verdict;
use accept::check::Refused;
use printing::wording::{put_asked, put_counts, put_refusal};
use snapshot::refusal::Refusal;

// Whether a kind is a question's, for a path, for a path with its route or for a reach.
// By numbers: `Kind` has the kinds of records alone, and `QuestionKind` stands in `printer`, on which this crate doesn't stand.
fn asks(kind: u8) -> bool
    ensures { result ≡ asks kind }
{
    matches!(kind, 12 | 14..)
}

// Whether a question begins at the word at a place.
#[tactic(auto, using(crate::proofs::Laws::asks_in, crate::proofs::Laws::asks_past))]
fn asks_at(bytes: &[u8], place: usize) -> bool
    ensures { result ≡ asks_at bytes.now place }
{
    place < bytes.len() / 4 && asks(bytes[4 * place + 3] / 16)
}

// The text of a refusal.
// It answers where the text ends; the refusal is what comes in.
fn put_refused(bytes: &[u8], no: Refused, out: &mut [u8]) -> usize
    requires { text_limit ≤ length out.old }
    ensures { Put out.old 0 (refused_text bytes.now (refusal_number no.why) no.at) out.new result }
{
    if no.why == Refusal::Form && asks_at(bytes, no.at) {
        return put_asked(out, no.at);
    }
    put_refusal(out, no.why.number() as u32, no.at)
}

/// Puts the text that answers for the bytes at the front, and answers its length; the bytes past it stay.
pub fn report(bytes: &[u8], words: &mut [u32], area: &mut [u32], out: &mut [u8]) -> usize
    requires word_limit_in_bounds { (word_limit ≤ length words.old) × (area_limit ≤ length area.old) }
    requires text_limit_in_bounds { text_limit ≤ length out.old }
    ensures out_after { (take result out.new ≡ text_of bytes.now (verdict_of bytes.now))
        × (drop result out.new ≡ drop result out.old) }
    ensures prefix_len { IsPrefixLen result out.new }
{
    match verdict(bytes, words, area) {
        Err(no) => put_refused(bytes, no, out),
        Ok(l) => put_counts(out, l),
    }
}
