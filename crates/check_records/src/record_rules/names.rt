//! Kind 1: a name.
ghost use Rattle.std.specs.Prelude.{◌≡◌, List, ◌+◌, ◌-◌, ◌^◌, ◌<◌, ◌≤◌, length, get_or};
ghost use Rattle.snapshot.specs.Lists.{rows, any, eq_list};
ghost use Rattle.snapshot.specs.Limits.{name_limit};
ghost use Rattle.snapshot.specs.Words.{pay_of, words_of};
ghost use Rattle.snapshot.specs.Records.{Map, name_at};
ghost use Rattle.snapshot.specs.Layouts.{name_head, names_of, snap_with};
ghost use Rattle.check_records.specs.chains.Chains.{name_key, Chained, name_heads, name_links};
ghost use Rattle.check_rules.specs.Tests.{text_bound, padded as padded_of, name_range, same_name, is_builtin};
ghost use Rattle.check_rules.specs.Steps.{name_step};
ghost use Rattle.check_records.specs.record_rules.Stands.{Ready, Stands, Answered};

use crate::chains::chain::{Chains, link};
use crate::chains::keys::name_key;
use crate::record_rules::judge::judge;
use snapshot::ids::Name;
use snapshot::kind::text_words;
use snapshot::layout::Layout;
use snapshot::reading::{field, payload, payload_of, word};
use snapshot::refusal::Refusal;
use snapshot::table::name_head;

// What a word that holds b more bytes of text stays below.
fn text_bound(b: usize) -> usize
    ensures { result ≡ text_bound b }
{
    if b == 0 {
        return 1;
    }
    if b == 1 {
        return 256;
    }
    if b == 2 {
        return 65536;
    }
    16777216
}

// Whether n words after a head, with the bytes in them, have nothing past these.
fn padded(words: &[u32], head: usize, bytes: usize, n: usize) -> bool
    requires { n < 2 ^ 32 }
    ensures { result ≡ padded_of bytes (rows (λ i. get_or words.now (head + 1 + i) 0) 0 n) }
{
    let mut b = bytes;
    for i in 0..n {
        let most = text_bound(b);
        if most <= field(words, head, 1 + i) {
            return false;
        }
        b = b.saturating_sub(3);
    }
    true
}

fn in_range(words: &[u32], at: usize) -> bool
    ensures { result ≡ name_range (name_at words.now at) }
{
    let bytes = payload(words, at);
    let n = text_words(bytes);
    let clean = padded(words, at, bytes, n);
    (1 <= bytes) & (bytes <= Name::BYTES) & clean
}

// Whether the n words after two heads are the same.
// The right words may end before the n: past the end a word reads as 0, so `==` of two slices is another test.
fn same_words(left: &[u32], a: usize, right: &[u32], b: usize, n: usize) -> bool
    requires { n < 2 ^ 32 }
    ensures { result ≡ eq_list (rows (λ i. get_or left.now (a + 1 + i) 0) 0 n) (rows (λ i. get_or right.now (b + 1 + i) 0) 0 n) }
{
    for i in 0..n {
        let x = field(left, a, 1 + i);
        let y = field(right, b, 1 + i);
        if x != y {
            return false;
        }
    }
    true
}

// Whether two names have the same text, with the words of the first one and the last of them: mostly that one differs.
// Names are words of a snapshot, not strings: there is no type whose equality could be derived.
fn same_text(left: &[u32], a: usize, right: &[u32], b: usize, n: usize, last: usize) -> bool
    requires { (b + n < 2 ^ 33) × (n ≡ words_of (pay_of (get_or left.now a 0))) × (last ≡ pay_of (get_or left.now (a + n) 0)) }
    ensures { result ≡ same_name (name_at left.now a) (name_at right.now b) }
{
    if payload(right, b + n) != last {
        return false;
    }
    let x = payload(left, a);
    let y = payload(right, b);
    if x != y {
        return false;
    }
    same_words(left, a, right, b, n)
}

/// Whether one of the n names with these heads has the text of the name at a place.
// The heads are the front of an area or of a table, of which n count. Tried with the slice of these n alone: the proof of `keywords`, which has the
// front of a constant table, did not close.
pub fn known(words: &[u32], at: usize, names: &[u32], heads: &[u32], n: usize) -> bool
    requires { (n < 2 ^ 32) × (n ≤ length heads.now) }
    ensures { result ≡ any (same_name (name_at words.now at))
        (rows (λ k. name_at names.now (get_or heads.now k 0)) 0 n) }
{
    let size = text_words(payload(words, at));
    let last = payload_of(field(words, at, size));
    for head in &heads[..n] {
        if same_text(words, at, names, *head as usize, size, last) {
            return true;
        }
    }
    false
}

// The builtin types, as name records, and the places of their heads.
// Words and no strings: `known` compares them with a name's words as a snapshot has them, and a string would be packed into such words at each test.
const BUILTINS: [u32; 45] = [
    0x10000004, 0x00616863, 0x00000072, 0x10000004, 0x006f6f62, 0x0000006c, 0x10000003, 0x00727473,
    0x10000005, 0x00697369, 0x0000657a, 0x10000002, 0x00003869, 0x10000003, 0x00363169, 0x10000003,
    0x00323369, 0x10000003, 0x00343669, 0x10000004, 0x00323169, 0x00000038, 0x10000005, 0x00697375,
    0x0000657a, 0x10000002, 0x00003875, 0x10000003, 0x00363175, 0x10000003, 0x00323375, 0x10000003,
    0x00343675, 0x10000004, 0x00323175, 0x00000038, 0x10000003, 0x00363166, 0x10000003, 0x00323366,
    0x10000003, 0x00343666, 0x10000004, 0x00323166, 0x00000038,
];

const BUILTIN_HEADS: [u32; 19] = [
    0, 3, 6, 8, 11, 13, 15, 17, 19, 22, 25, 27, 29, 31, 33, 36, 38, 40, 42,
];

/// Whether the name with its head at a place is a builtin type's.
pub fn is_builtin(words: &[u32], at: usize) -> bool
    ensures { result ≡ is_builtin (name_at words.now at) }
{
    known(words, at, &BUILTINS, &BUILTIN_HEADS, 19)
}

// Whether a name with the key has the text of the name at a place.
// Both the heads of the n names and their chains stand in the area, so it is passed whole.
// `while`: it follows links, so the next number is read.
// `records::repeats::repeated_with` walks its links alike: why there are two walks is said there.
fn repeated(words: &[u32], at: usize, area: &[u32], n: usize, key: usize) -> bool
    requires chained { Chained area.now name_heads name_links (λ i. name_key (name_at words.now (name_head area.now i))) n }
    requires n_le_name_limit { (n ≤ name_limit) × (key ≡ name_key (name_at words.now at)) }
    ensures { result ≡ any (same_name (name_at words.now at)) (names_of words.now area.now n) }
{
    let size = text_words(payload(words, at));
    let last = payload_of(field(words, at, size));
    let mut k = word(area, Chains::NAME_HEADS + key);
    while k != 0 {
        let j = k - 1;
        if same_text(words, at, words, name_head(area, Name(j)), size, last) {
            return true;
        }
        k = word(area, Chains::NAME_LINKS + j);
    }
    false
}

/// A name.
pub fn step(words: &[u32], area: &mut [u32], l: Layout, at: usize) -> Result<Layout, Refusal>
    requires { Ready words.now area.old l at (at + 1 + words_of (pay_of (get_or words.now at 0))) }
    ensures { (ms : List Map) → Stands words.now area.old 1 at l ms
        → Answered words.now area.new 1 (at + 1 + words_of (pay_of (get_or words.now at 0)))
        (name_step (snap_with words.now area.old l ms) (name_at words.now at)) result }
{
    let names = l.names;
    let range = in_range(words, at);
    let key = name_key(words, at);
    let old = repeated(words, at, area, names, key);
    judge(range, true, old, true, names < Name::LIMIT)?;
    area[names] = at as u32;
    link(area, Chains::NAME_HEADS, Chains::NAME_LINKS, key, names);
    let mut m = l;
    m.names = names + 1;
    m.text = at + 1 + text_words(payload(words, at));
    Ok(m)
}
