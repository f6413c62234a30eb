//! Scope entries that come and go in a snapshot whose words the caller lends. Neither edit asks anything of its caller.
//! Uses the definitions of `edit_rules` and clears as `answer` does.
//! An entry added to a snapshot, or removed from it, in the words that the caller lends.
//! The words are lent with room at their end: the snapshot is the first `count`, and no Vec could grow, for want of a heap.
#![tactic(auto)]

ghost use Rattle.std.specs.Prelude.{◌≡◌, List, ℕ, ◌≤◌, length, take};
ghost use Rattle.snapshot.specs.Limits.{area_limit};
ghost use Rattle.snapshot.specs.Records.{Snapshot};
ghost use Rattle.check_rules.specs.Verdict.{verdict, accept};
ghost use Rattle.accept.specs.Post.{Reads};
ghost use Rattle.answer.specs.Answers.{area_after};
ghost use Rattle.answer.specs.counts.Counts.{told};
ghost use Rattle.edit_rules.specs.Entries.{entry_of};
ghost use Rattle.edit_rules.specs.Edits.{adding, removing, edit_by};
ghost use Rattle.edits.specs.Edits.{Edits, EditsIn, Opens};

use accept::check::check;
use answer::area::in_front;
use edit_rules::scope_edits::entries::{add_fault, record_of};
use edit_rules::scope_edits::moves::{insert, remove};
use edit_rules::scope_edits::places::{EntryKey, entry_place, scopes_end};
use snapshot::ids::Area;
use snapshot::kind::Size;
use snapshot::layout::Layout;
use snapshot::refusal::Refusal;

// The check of the first words, so many.
// In all edits `count` words are the snapshot and those past them room to grow into, so the slice is longer than the count.
fn check_first(words: &[u32], count: usize, area: &mut Area) -> Result<Layout, Refusal>
    ensures { Opens words.now count area_limit result }
{
    if words.len() < count {
        return Err(Refusal::Words);
    }
    Ok(check(&words[..count], area)?)
}

// The same, in a work area that is cleared after it.
fn opened(words: &[u32], count: usize, area: &mut [u32]) -> Result<Layout, Refusal>
    ensures opens { Opens words.now count (length area.old) result }
    ensures area_after { area.new ≡ area_after area.old }
{
    in_front(area, |front| check_first(words, count, front))
}

// Adds an entry to an accepted snapshot; answers the new count.
fn add_accepted(
    words: &mut [u32],
    count: usize,
    l: Layout,
    entry: &[u32; Size::SCOPE],
) -> Result<usize, Refusal>
    requires { (count ≤ length words.old) × ((A : List ℕ) × Reads (take count words.old) A l) }
    ensures { Edits words.old count (edit_by (take count words.old) (length words.old)
        (adding (entry_of entry.now)) (verdict (take count words.old))) words.new (told count result) }
{
    let slice = words.len();
    add_fault(&words[..count], l, entry, slice)?;
    let at = scopes_end(&words[..count]);
    let added = record_of(entry);
    insert(words, at, count, &added);
    Ok(count + Size::SCOPE)
}

/// Adds an entry to the snapshot in the first words, so many: module, namespace, name, definition, visibility and its number,
/// declared, bits. Its record is written after the last scope record; where there is none, before the first record of a higher kind, or at the
/// end; the words after it move up, and all past the new end are zero. Answers the new count, or why the edit is refused, with the words
/// unchanged and the count as before: 20 a small work area, 30 to 36 and 43 the snapshot, 30 also more words than there are, 32, 33 and
/// 35 the entry, 47 a name that is there already, 48 no room. The work area is left as `find_path` leaves it.
pub fn add_entry(
    words: &mut [u32],
    count: usize,
    area: &mut [u32],
    entry: &[u32; Size::SCOPE],
) -> Result<usize, Refusal>
    ensures { EditsIn words.old count area.old (adding (entry_of entry.now)) words.new area.new
        (told count result) }
{
    let l = opened(words, count, area)?;
    add_accepted(words, count, l, entry)
}

// Removes an entry from an accepted snapshot; answers the new count.
fn remove_accepted(words: &mut [u32], count: usize, key: EntryKey) -> Result<usize, Refusal>
    requires { (count ≤ length words.old) × ((s : Snapshot) × (verdict (take count words.old) ≡ accept s)) }
    ensures { Edits words.old count (edit_by (take count words.old) (length words.old)
        (removing key.owner key.ns key.name) (verdict (take count words.old))) words.new (told count result) }
{
    let at = entry_place(&words[..count], key);
    if count <= at {
        return Err(Refusal::Entry);
    }
    remove(words, at, count);
    Ok(count - Size::SCOPE)
}

/// Removes the entry of a key from the snapshot in the first words, so many: the words after its record move
/// down, and all past the new end are zero. Answers as `add_entry` does, with 47 for a name that isn't there.
pub fn remove_entry(
    words: &mut [u32],
    count: usize,
    area: &mut [u32],
    key: EntryKey,
) -> Result<usize, Refusal>
    ensures { EditsIn words.old count area.old (removing key.owner key.ns key.name) words.new area.new
        (told count result) }
{
    opened(words, count, area)?;
    remove_accepted(words, count, key)
}
