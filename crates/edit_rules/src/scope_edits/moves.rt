//! Words moved up to make room for a record, or down over one.
ghost use Rattle.std.specs.Prelude.{◌≡◌, ◌++◌, ◌+◌, ◌-◌, ◌≤◌, length, take, drop, replicate};
ghost use Rattle.snapshot.specs.Sizes.{scope_size};
ghost use Rattle.edit_rules.specs.Entries.{inserted, cut};

use check_records::chains::chain::clear;
use snapshot::kind::Size;

// Moves the words from a place to another up by the words of a record.
// Loops, here and below: `copy_within` and `copy_from_slice` have C bring a `memmove`.
fn move_up(words: &mut [u32], at: usize, count: usize)
    requires { (at ≤ count) × (count + scope_size ≤ length words.old) }
    ensures { words.new ≡ take (at + scope_size) words.old ++ (drop at (take count words.old)
        ++ drop (count + scope_size) words.old) }
{
    for i in (at..count).rev() {
        words[i + Size::SCOPE] = words[i];
    }
}

// Writes a record over the words at a place.
// Into the words that C lends: no Vec, whose `insert` would do this.
fn put_record(words: &mut [u32], at: usize, added: &[u32])
    requires { (at + scope_size ≤ length words.old) × (length added.now ≡ scope_size) }
    ensures { words.new ≡ take at words.old ++ (added.now ++ drop (at + scope_size) words.old) }
{
    for i in 0..Size::SCOPE {
        words[at + i] = added[i];
    }
}

/// Puts a record in at a place of the first words, so many, and clears the words past them.
pub fn insert(words: &mut [u32], at: usize, count: usize, added: &[u32])
    requires { (at ≤ count) × (count + scope_size ≤ length words.old) × (length added.now ≡ scope_size) }
    ensures { words.new ≡ inserted at added.now (take count words.old) ++ replicate
        (length words.old - (count + scope_size)) 0 }
{
    move_up(words, at, count);
    put_record(words, at, added);
    clear(words, count + Size::SCOPE, words.len());
}

// Moves the words after a record down over it.
fn move_down(words: &mut [u32], at: usize, count: usize)
    requires { (at + scope_size ≤ count) × (count ≤ length words.old) }
    ensures { words.new ≡ cut at scope_size (take count words.old) ++ drop (count - scope_size) words.old }
{
    for i in at..count - Size::SCOPE {
        words[i] = words[i + Size::SCOPE];
    }
}

/// Takes the record at a place out of the first words, so many, and clears the words past them.
pub fn remove(words: &mut [u32], at: usize, count: usize)
    requires { (at + scope_size ≤ count) × (count ≤ length words.old) }
    ensures { words.new ≡ cut at scope_size (take count words.old) ++ replicate
        (length words.old - (count - scope_size)) 0 }
{
    move_down(words, at, count);
    clear(words, count - Size::SCOPE, words.len());
}
