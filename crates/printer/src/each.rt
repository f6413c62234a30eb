//! All lines of an input.
ghost use Rattle.std.specs.Prelude.{◌≡◌, ◌≤◌, ℕ, List, length, take, map, OnOk};
ghost use Rattle.std.specs.Fn.{CalledAt};
ghost use Rattle.std.specs.List.{FoldsTo};
ghost use Rattle.snapshot.specs.Limits.{word_limit, routed_limit};
ghost use Rattle.printer.specs.Printed.{Turns, printed, ended};

use crate::input::input_fault;
use crate::lines::next_line;
use crate::questions::first_question;
use accept::check::check;
use line::put_refusal;
use printing::input::words_in;
use snapshot::ids::Area;

// The lines of the questions, which begin at place k; the snapshot before them is checked once.
// `while`: questions differ in size, so `next_line` tells the place of the next one.
fn each_answer<E: Drop, F: FnMut(&[u8]) -> Result<(), E>>(
    words: &[u32],
    k: usize,
    area: &mut Area,
    out: &mut [u8],
    each: &mut F,
) -> Result<(), E>
    requires room { (k ≤ length words.now) × (length words.now ≤ word_limit) × (routed_limit ≤ length out.old) }
    requires call { F.IsAlwaysCallable each.old }
    ensures { OnOk result ((c : _) × (texts : List (List ℕ)) × Turns words.now (take k words.now) c k texts
        × FoldsTo (λ p t q. CalledAt F.FnMut p t (Ok tt) q) each.old texts each.new) }
{
    let snapshot = &words[..k];
    let c = check(snapshot, area);
    let mut at = k;
    while at < words.len() {
        let t = next_line(words, snapshot, area, c, at, out);
        each(&out[..t.bytes])?;
        at = t.next;
    }
    Ok(())
}

/// Gives each line of an input to a function, until that fails; without a question there is none.
pub fn each_line<E: Drop, F: FnMut(&[u8]) -> Result<(), E>>(
    bytes: &[u8],
    words: &mut [u32],
    area: &mut Area,
    out: &mut [u8],
    each: &mut F,
) -> Result<(), E>
    requires room { (word_limit ≤ length words.old) × (routed_limit ≤ length out.old) }
    requires call { F.IsAlwaysCallable each.old }
    ensures { OnOk result (FoldsTo (λ p t q. CalledAt F.FnMut p t (Ok tt) q) each.old (map ended (printed bytes.now)) each.new) }
{
    if let Err(why) = input_fault(bytes) {
        let n = put_refusal(out, why.number());
        return each(&out[..n]);
    }
    let n = bytes.len() / 4;
    words_in(bytes, words, n);
    let words = &words[..n];
    let k = first_question(words);
    if k < words.len() {
        return each_answer(words, k, area, out, each);
    }
    Ok(())
}
