//! Where a record is put in, and where an entry stands.
ghost use Rattle.std.specs.Prelude.{◌≡◌, ◌≤◌, length};
ghost use Rattle.snapshot.specs.Limits.{word_limit};
ghost use Rattle.edit_rules.specs.Entries.{is_named, scopes_end, is_entry, entry_place};

use snapshot::kind::{Kind, arguments};
use snapshot::reading::kind;
use snapshot::record::{scope_name, scope_ns, scope_owner};

/// What an entry is known by: its module, its namespace and its name.
#[derive(Clone, Copy)]
pub struct EntryKey {
    pub owner: usize,
    pub ns: usize,
    pub name: usize,
}

/// The end of the last scope record; where there is none, the place of the first record of a higher kind, or the end.
// `while`: records differ in size, so the place of the next one is read; so in `entry_place`.
pub fn scopes_end(words: &[u32]) -> usize
    requires { length words.now ≤ word_limit }
    ensures { result ≡ scopes_end words.now }
{
    let mut at = 0;
    while at < words.len() {
        if kind(words, at) > Kind::Scope as usize {
            return at;
        }
        at = at + 1 + arguments(words, at);
    }
    at
}

// Whether the record at a place is the entry of a key.
fn is_entry(words: &[u32], at: usize, key: EntryKey) -> bool
    ensures { result ≡ is_entry (is_named key.owner key.ns key.name) words.now at }
{
    let scope = kind(words, at) == Kind::Scope as usize;
    let holder = scope_owner(words, at);
    let called = scope_name(words, at);
    scope & ((key.owner == holder.0) & (key.ns == scope_ns(words, at)) & (key.name == called.0))
}

/// The place of the entry of a key, or the end.
// The end for none: the definition `entry_place` answers it, and `edits` tests the place against the count of words. An `Option` would be made that
// number in each clause.
// `while`, as in `scopes_end`.
// The walk of `scopes_end` to another record. One walk for both takes the test as a closure, with what the closure gives in its clauses, and is no
// shorter than the two loops.
pub fn entry_place(words: &[u32], key: EntryKey) -> usize
    requires { length words.now ≤ word_limit }
    ensures { result ≡ entry_place (is_named key.owner key.ns key.name) words.now }
{
    let mut at = 0;
    while at < words.len() {
        if is_entry(words, at, key) {
            return at;
        }
        at = at + 1 + arguments(words, at);
    }
    at
}
