//! The entries whose heads stand in the work area, put in order: a part is sorted by halves, and the halves are merged.
ghost use Rattle.std.specs.Prelude.{◌≡◌, ◌&&◌, ◌+◌, ◌≤◌, ltb, length, get_or};
ghost use Rattle.snapshot.specs.Limits.{area_limit};
ghost use Rattle.snapshot.specs.Records.{scope_at};
ghost use Rattle.imports.specs.order.Rooms.{entries_room, heads_room};
ghost use Rattle.imports.specs.order.Lists.{order_of, Copied, Ready, Merges, Sorts};

use crate::order::entries::entry_before;
use accept::opened::Snapshot;
use snapshot::ids::{Area, ModuleId, WordCount};
use snapshot::kind::Size;
use snapshot::reading::word;
use snapshot::records::Records;
use snapshot::table::Tables;

/// The first words of the lists in the work area, past the tables.
#[derive(Clone, Copy)]
pub struct Lists;

impl Lists {
    /// The heads of entries.
    pub const ENTRIES: usize = Tables::END;

    /// The heads of the entries' threads, a word a module.
    pub const HEADS: usize = Lists::ENTRIES + WordCount::SNAPSHOT / Size::SCOPE;

    /// As many words as there are entries, for merging, and then for the links of their threads.
    pub const SPARE: usize = Lists::HEADS + ModuleId::LIMIT;
}

// Copies words from a place on to the spare ones.
// A loop: `copy_within` has C bring a `memmove`.
fn copy(area: &mut Area, from: usize, n: usize)
    requires { (from + n ≤ heads_room) × (n ≤ 2048) }
    ensures { Copied area.old area.new from n }
{
    for i in 0..n {
        area[Lists::SPARE + i] = area[from + i];
    }
}

// Whether the next entry of the second run, if there is one before its end, stands before that of the first.
fn second_first(db: &Snapshot, first: usize, second: usize, end: usize) -> bool
    ensures { result ≡ (ltb second end && order_of db.now.records.words.now db.now.area.now db.now.records.layout
        (scope_at db.now.records.words.now (get_or db.now.area.now second 0)) (scope_at db.now.records.words.now (get_or db.now.area.now first 0))) }
{
    if end <= second {
        return false;
    }
    entry_before(db, word(db.area, second), word(db.area, first))
}

// Merges two runs of entries, the first m and the next n from a place on.
// Two cursors: which of them moves depends on the entries read, so no range or iterator gives the next place.
fn merge(records: &Records, area: &mut Area, from: usize, m: usize, n: usize)
    requires { Ready records.now.words.now area.old records.now.layout × (entries_room ≤ from) × (from + m + n ≤ heads_room) }
    ensures { Merges records.now.words.now area.old records.now.layout area.new from m n }
{
    copy(area, from, m);
    let middle = from + m;
    let end = middle + n;
    let mut i = 0;
    let mut j = 0;
    while i < m {
        let db = Snapshot {
            records: *records,
            area,
        };
        if second_first(&db, Lists::SPARE + i, middle + j, end) {
            area[from + i + j] = area[middle + j];
            j += 1;
        } else {
            area[from + i + j] = area[Lists::SPARE + i];
            i += 1;
        }
    }
}

/// Puts the n entries from a place on in order.
pub fn sort(records: &Records, area: &mut Area, from: usize, n: usize)
    requires { Ready records.now.words.now area.old records.now.layout × (entries_room ≤ from) × (from + n ≤ heads_room) }
    ensures { Sorts records.now.words.now area.old records.now.layout area.new from n }
{
    if n < 2 {
        return;
    }
    let half = n / 2;
    let rest = n - half;
    sort(records, area, from, half);
    sort(records, area, from + half, rest);
    merge(records, area, from, half, rest);
}
