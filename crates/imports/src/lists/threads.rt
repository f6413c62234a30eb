//! The public entries of all modules in order, threaded by module, and the members threaded by parent.
ghost use Rattle.std.specs.Prelude.{◌≡◌, ℕ, ◌+◌, ◌*◌, ◌-◌, ◌≤◌, ◌<◌, length, get_or};
ghost use Rattle.snapshot.specs.Limits.{word_limit, module_limit, area_limit};
ghost use Rattle.snapshot.specs.Layouts.{word_count};
ghost use Rattle.imports.specs.order.Rooms.{entries_room, heads_room, spare_room};
ghost use Rattle.imports.specs.order.Lists.{Ready};
ghost use Rattle.imports.specs.lists.Threads.{member_heads_base, member_links_base, entry_of, member_of, Gathered, Threads, Threaded};

use crate::order::sort::{Lists, sort};
use check_records::chains::chain::{clear, link};
use snapshot::ids::Area;
use snapshot::kind::Size;
use snapshot::layout::Layout;
use snapshot::reading::word;
use snapshot::record::{member_parent, scope_owner, scope_visibility};
use snapshot::records::Records;

/// The first word of the heads of the members' threads, a word a definition.
pub fn member_heads_base(l: Layout) -> usize
    requires { l.scopes ≤ word_limit }
    ensures { result ≡ member_heads_base l }
{
    Lists::SPARE + l.scopes
}

/// The first word of the links of the members' threads.
pub fn member_links_base(l: Layout) -> usize
    requires { l.scopes + l.definitions ≤ word_limit }
    ensures { result ≡ member_links_base l }
{
    member_heads_base(l) + l.definitions
}

// Leaves the heads of the public entries of all modules in the work area, in record order, and answers how many there are.
// By the number of the visibility, 0 for public, as the definition tests it: a `match` on a `Visibility` would be no plainer.
// `base + Size::SCOPE * k` is the place of record k: a method for it would be this sum under a name. So with `Size::MEMBER` below.
fn gather(records: &Records, area: &mut [u32]) -> usize
    requires { Ready records.now.words.now area.old records.now.layout }
    ensures { Gathered records.now.words.now area.old records.now.layout area.new result }
{
    let base = records.layout.scope_base();
    let count = records.layout.scopes;
    let mut n = 0;
    for k in 0..count {
        let at = base + Size::SCOPE * k;
        if scope_visibility(records.words, at) == 0 {
            area[Lists::ENTRIES + n] = at as u32;
            n += 1;
        }
    }
    n
}

// Threads the entries by module, the last first.
// Link j is that of entry n - 1 - j: a `rev` would give one of both, and the other would be counted beside it. So in `thread_members`.
// The heads are read from the area that the threads are written to, and `Threads` speaks of that area whole: so n counts them, and no slice is lent.
fn thread_entries(words: &[u32], area: &mut Area, n: usize)
    requires area_len { entries_room + n ≤ heads_room }
    requires by_index { ((b : ℕ) → b < module_limit → get_or area.old (heads_room + b) 0 ≡ 0)
        × ((j : ℕ) → j < n → (entry_of words.now area.old n j).owner < module_limit) }
    ensures { Threads module_limit heads_room spare_room (λ j. (entry_of words.now area.old n j).owner) n
        area.old area.new }
{
    for j in 0..n {
        let at = word(area, Lists::ENTRIES + (n - 1 - j));
        let m = scope_owner(words, at);
        link(area, Lists::HEADS, Lists::SPARE, m.0, j);
    }
}

// Threads the members by parent, the last first.
fn thread_members(records: &Records, area: &mut Area)
    requires area_len { (member_links_base records.now.layout + records.now.layout.members ≤ area_limit)
        × (word_count records.now.layout ≤ word_limit) }
    requires by_index { ((b : ℕ) → b < records.now.layout.definitions → get_or area.old (member_heads_base records.now.layout + b) 0 ≡ 0)
        × ((j : ℕ) → j < records.now.layout.members
        → (member_of records.now.words.now records.now.layout j).parent < records.now.layout.definitions) }
    ensures { Threads records.now.layout.definitions (member_heads_base records.now.layout) (member_links_base records.now.layout)
        (λ j. (member_of records.now.words.now records.now.layout j).parent) records.now.layout.members area.old area.new }
{
    let base = records.layout.member_base();
    let heads = member_heads_base(records.layout);
    let links = member_links_base(records.layout);
    let count = records.layout.members;
    for j in 0..count {
        let d = member_parent(records.words, base + Size::MEMBER * (count - 1 - j));
        link(area, heads, links, d.0, j);
    }
}

/// Threads the public entries, in order, and the members; answers how many entries there are.
pub fn thread(records: &Records, area: &mut Area) -> usize
    requires { Ready records.now.words.now area.old records.now.layout }
    ensures { Threaded records.now.words.now area.new records.now.layout result
        × ((i : ℕ) → i < entries_room → get_or area.new i 0 ≡ get_or area.old i 0) }
{
    let n = gather(records, area);
    sort(records, area, Lists::ENTRIES, n);
    clear(area, Lists::HEADS, member_links_base(records.layout));
    thread_entries(records.words, area, n);
    thread_members(records, area);
    n
}
