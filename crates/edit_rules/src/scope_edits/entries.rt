//! An entry that comes in as words, a word a field in the order of a scope record: its tests, and its record.
ghost use Rattle.std.specs.Prelude.{◌≡◌, List, true, false, ℕ, ◌≤◌, ◌<◌, length, get_or};
ghost use Rattle.snapshot.specs.Limits.{word_limit};
ghost use Rattle.snapshot.specs.Refusals.{fault_number};
ghost use Rattle.snapshot.specs.Layouts.{word_count, snap_of};
ghost use Rattle.check_rules.specs.Tests.{counts_of, scope_range, scope_defined, ns_placed};
ghost use Rattle.check_records.specs.record_rules.Stands.{number_of, counts_in};
ghost use Rattle.accept.specs.Post.{Reads};
ghost use Rattle.edit_rules.specs.Entries.{entry_of, scope_words};
ghost use Rattle.edit_rules.specs.Edits.{adding, edit_fault};

use crate::scope_edits::places::{EntryKey, entry_place};
use check_records::item_records::definitions::ns_placed;
use check_records::record_rules::judge::judge;
use snapshot::ids::{DefinitionId, Namespace, WordCount};
use snapshot::kind::Size;
use snapshot::layout::Layout;
use snapshot::reading::word;
use snapshot::refusal::Refusal;

// The entry's words are not packed as a record's: passing five fields to one test of both would be no plainer.
fn in_range(entry: &[u32]) -> bool
    ensures { result ≡ scope_range (entry_of entry.now) }
{
    let visibility = word(entry, 4);
    let number = word(entry, 5);
    (word(entry, 1) <= Namespace::LIMIT)
        & (visibility <= 3)
        & ((visibility != 0) | (number == 0))
        & (word(entry, 6) <= 3)
        & (word(entry, 7) <= 3)
}

fn defined(l: Layout, entry: &[u32]) -> bool
    ensures { result ≡ scope_defined (counts_in l) (entry_of entry.now) }
{
    let owner = word(entry, 0);
    let name = word(entry, 2);
    let definition = word(entry, 3);
    let visibility = word(entry, 4);
    let number = word(entry, 5);
    let named = (owner < l.modules) & (name < l.names) & (definition < l.definitions);
    named & ((visibility != 1) | (number < l.crates)) & ((visibility <= 1) | (number < l.modules))
}

// Why a scope record of the entry would be refused, but for a repeated one.
fn entry_fault(words: &[u32], l: Layout, entry: &[u32]) -> Result<(), Refusal>
    requires { word_count l ≤ word_limit }
    ensures { (A : List ℕ) → fault_number result ≡ number_of (scope_range (entry_of entry.now))
        (scope_defined (counts_of (snap_of words.now A l)) (entry_of entry.now)) false
        (ns_placed (snap_of words.now A l) (entry_of entry.now).ns (entry_of entry.now).definition) true }
{
    let ns = word(entry, 1);
    let definition = word(entry, 3);
    let placed = ns_placed(words, l, ns, DefinitionId(definition));
    judge(in_range(entry), defined(l, entry), false, placed, true)
}

/// Why the addition of an entry to an accepted snapshot is refused: by its own fields, by a name that is there already, or for want
/// of room; the snapshot stands in a slice of so many words.
pub fn add_fault(words: &[u32], l: Layout, entry: &[u32], slice: usize) -> Result<(), Refusal>
    requires { (word_count l ≡ length words.now) × (length words.now ≤ word_limit) }
    ensures { (A : List ℕ) → Reads words.now A l
        → fault_number result ≡ edit_fault (snap_of words.now A l) (length words.now) slice (adding (entry_of entry.now)) }
{
    let owner = word(entry, 0);
    let ns = word(entry, 1);
    let name = word(entry, 2);
    let key = EntryKey { owner, ns, name };
    let there = entry_place(words, key) < words.len();
    let count = words.len() + Size::SCOPE;
    let room = (count <= WordCount::SNAPSHOT) & (count <= slice);
    entry_fault(words, l, entry)?;
    if there {
        return Err(Refusal::Entry);
    }
    if !room {
        return Err(Refusal::Room);
    }
    Ok(())
}

/// The record of an entry.
pub fn record_of(entry: &[u32; Size::SCOPE]) -> [u32; Size::SCOPE]
    requires { get_or entry.now 0 0 < 268435456 }
    ensures { result ≡ scope_words (entry_of entry.now) }
{
    let head = 2415919104 + entry[0];
    [
        head, entry[1], entry[2], entry[3], entry[4], entry[5], entry[6], entry[7],
    ]
}
