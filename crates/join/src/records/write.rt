//! The words of both written to a target, or only counted: one walk for both.
//! C lends the target and nothing is allocated: words are put at a place, and the place after them is answered.
//! `write` is the flag of `Space` and `Wrote`, counting where it is false; two variants in its place would say the same.
//! Target, place and flag are three parameters: of a struct that holds the target each function would promise too that its loan is still the same.
ghost use Rattle.std.specs.Prelude.{◌≤◌, ◌<◌, ◌≡◌, length};
ghost use Rattle.snapshot.specs.Limits.{word_limit};
ghost use Rattle.snapshot.specs.Layouts.{word_count};
ghost use Rattle.join.specs.records.Moves.{numbers_in, moved_at, kept_at, kept_words, moved_run, run_of, base_of, kind_in, words_in, kinds};
ghost use Rattle.join.specs.records.Writes.{Space, Wrote, whole_in};

use crate::numbers::inputs::Parts;
use crate::records::fields::Moving;
use snapshot::kind::{Kind, Size, arguments};
use snapshot::layout::Layout;
use snapshot::reading::kind;
use snapshot::records::Records;

// Those whose words are put one after the other; modules stand with their maps.
const KINDS: usize = 11;

// Puts the words from one place to another, and answers the place after them.
// A loop: `copy_from_slice` has C bring a `memmove`.
fn copy(words: &[u32], from: usize, end: usize, target: &mut [u32], to: usize, write: bool) -> usize
    requires { (from ≤ end) × (end ≤ length words.now) × Space write to (run_of words.now from end) target.old }
    ensures { Wrote write to (run_of words.now from end) target.old target.new result }
{
    let n = end - from;
    if !write {
        return to + n;
    }
    for i in 0..n {
        target[to + i] = words[from + i];
    }
    to + n
}

// Puts the record with its head at a place, moved.
fn put_record(second: &Moving, at: usize, target: &mut [u32], to: usize, write: bool) -> usize
    requires { Space write to (moved_at (numbers_in second.now) second.now.words.now at) target.old }
    ensures { Wrote write to (moved_at (numbers_in second.now) second.now.words.now at) target.old
        target.new result }
{
    let n = 1 + arguments(second.words, at);
    if !write {
        return to + n;
    }
    for i in 0..n {
        target[to + i] = second.moved_word(at, i) as u32;
    }
    to + n
}

// Whether record n of its kind is new.
fn is_kept(second: &Moving, at: usize, n: usize) -> bool
    ensures { result ≡ kept_at second.now.area.now second.now.first second.now.words.now at n }
{
    match Kind::of(kind(second.words, at)) {
        Some(Kind::Name) => second.first.names <= second.name_to(n),
        Some(Kind::Definition) => second.first.definitions <= second.definition_to(n),
        _ => true,
    }
}

// Puts it, if it is.
fn put_kept(
    second: &Moving,
    at: usize,
    n: usize,
    target: &mut [u32],
    to: usize,
    write: bool,
) -> usize
    requires { Space write to (kept_words second.now.area.now second.now.first second.now.words.now at n) target.old }
    ensures { Wrote write to (kept_words second.now.area.now second.now.first second.now.words.now at n) target.old
        target.new result }
{
    if !is_kept(second, at, n) {
        return to;
    }
    put_record(second, at, target, to, write)
}

// Puts the new records from one place to another, moved.
// `while`: records differ in size, so the place of the next one is read.
fn put_moved(
    second: &Moving,
    from: usize,
    end: usize,
    target: &mut [u32],
    to: usize,
    write: bool,
) -> usize
    requires { (end ≤ word_limit) × Space write to (moved_run second.now.area.now second.now.first second.now.words.now from end) target.old }
    ensures { Wrote write to (moved_run second.now.area.now second.now.first second.now.words.now from end) target.old
        target.new result }
{
    let mut at = from;
    let mut n = 0;
    let mut t = to;
    while at < end {
        t = put_kept(second, at, n, target, t, write);
        at = at + 1 + arguments(second.words, at);
        n += 1;
    }
    t
}

// Where the words of kind k begin, or where the last ones end.
fn base(l: Layout, k: usize) -> usize
    requires { (word_count l ≤ word_limit) × (k ≤ kinds) }
    ensures { result ≡ base_of l k }
{
    let bases = [
        0,
        l.text,
        l.dependency_base(),
        l.map_base(),
        l.child_base(),
        l.prelude_base(),
        l.definition_base(),
        l.scope_base(),
        l.import_base(),
        l.extern_base(),
        l.member_base(),
        l.member_base() + Size::MEMBER * l.members,
    ];
    bases[k]
}

// Puts the words of kind k.
fn put_kind(
    parts: &Parts,
    area: &[u32],
    k: usize,
    target: &mut [u32],
    to: usize,
    write: bool,
) -> usize
    requires whole { whole_in parts.now × (k < kinds) }
    requires space { Space write to (kind_in parts.now area.now k) target.old }
    ensures { Wrote write to (kind_in parts.now area.now k) target.old target.new result }
{
    let Records { words, layout, .. } = parts.first;
    let t = copy(
        words,
        base(layout, k),
        base(layout, k + 1),
        target,
        to,
        write,
    );
    let second = Moving {
        words: parts.second.words,
        area,
        first: layout,
    };
    let its = parts.second.layout;
    put_moved(&second, base(its, k), base(its, k + 1), target, t, write)
}

/// Puts the words of both at the front of the target, if it is to write, and answers how many they are: the work area has the new numbers of the
/// second's names and definitions.
pub fn put_kinds(parts: &Parts, area: &[u32], target: &mut [u32], write: bool) -> usize
    requires whole { whole_in parts.now }
    requires space { Space write 0 (words_in parts.now area.now) target.old }
    ensures { Wrote write 0 (words_in parts.now area.now) target.old target.new result }
{
    let mut to = 0;
    for k in 0..KINDS {
        to = put_kind(parts, area, k, target, to, write);
    }
    to
}
