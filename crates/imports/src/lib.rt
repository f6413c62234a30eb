//! A crate's import list, built from the maps, for every input: after `collect_import_map` of import_map.rs.
//! Uses the entry points of `answer` and the definitions of `import_rules`.
#![tactic(auto)]

ghost use Rattle.std.specs.Prelude.{◌≡◌, length};
ghost use Rattle.snapshot.specs.Laid.{snap_by};
ghost use Rattle.check_rules.specs.Verdict.{verdict};
ghost use Rattle.answer.specs.counts.Counts.{told};
ghost use Rattle.imports.specs.order.Lists.{Ready};
ghost use Rattle.imports.specs.Listings.{list_in, list_by, Lists, ListsIn};

pub mod lists;
pub mod order;

use crate::lists::threads::thread;
use crate::lists::walk::walk;
use crate::lists::write::put_modules;
use accept::check::check;
use accept::opened::Snapshot;
use answer::area::clear;
use snapshot::ids::{Area, Crate};
use snapshot::records::Records;
use snapshot::refusal::Refusal;

// The list of a crate of an accepted snapshot: counted first, then written where there is room for it. Answers the count.
fn list_accepted(
    records: &Records,
    area: &mut Area,
    c: Crate,
    target: &mut [u32],
) -> Result<usize, Refusal>
    requires { Ready records.now.words.now area.old records.now.layout }
    ensures { Lists target.old (list_in c.0 (length target.old) (snap_by records.now area.old))
        target.new (told 0 result) }
{
    if records.layout.crates <= c.0 {
        return Err(Refusal::Unknown);
    }
    let n = thread(records, area);
    let k = walk(records, area, n, c);
    let db = Snapshot {
        records: *records,
        area,
    };
    let count = put_modules(&db, n, k, target, 0, false, c);
    if target.len() < count {
        return Err(Refusal::Target);
    }
    put_modules(&db, n, k, target, 0, true, c);
    Ok(count)
}

// Checks the words, and lists.
fn list_checked(
    words: &[u32],
    area: &mut Area,
    c: Crate,
    target: &mut [u32],
) -> Result<usize, Refusal>
    ensures { Lists target.old (list_by c.0 (length target.old) (verdict words.now))
        target.new (told 0 result) }
{
    let layout = check(words, area)?;
    list_accepted(&Records { words, layout }, area, c, target)
}

/// Writes the import records of a crate to the target, in the order in which the Rust adds them, and answers how many words these are;
/// what stands past them stays. Or answers why the call is refused, with the target unchanged: 20 a small work area,
/// 30 to 36 and 43 the snapshot, 23 an unknown crate, 45 a target that is too short. The work area is left as `find_path` leaves it.
pub fn import_list(
    words: &[u32],
    area: &mut [u32],
    c: Crate,
    target: &mut [u32],
) -> Result<usize, Refusal>
    ensures { ListsIn words.now area.old c.0 target.old target.new area.new (told 0 result) }
{
    let Some(front) = area.first_chunk_mut() else {
        return Err(Refusal::Area);
    };
    let r = list_checked(words, front, c, target);
    clear(front);
    r
}
