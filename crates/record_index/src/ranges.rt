//! Where the records of each crate stand: a word a crate for its first, and one for one past its last.
ghost use Rattle.std.specs.Prelude.{◌≡◌, ℕ, ◌+◌, ◌*◌, ◌≤◌, ◌<◌, ◌^◌, length};
ghost use Rattle.snapshot.specs.Limits.{crate_limit};
ghost use Rattle.record_index.specs.Post.{Emptied, Noted, Filled};

use snapshot::ids::Crate;
use snapshot::reading::word;

// No crate has a record yet: each range ends at 0.
fn clear_ends(area: &mut [u32], at: usize, crates: usize)
    requires { (crates ≤ crate_limit) × (at + 2 * crate_limit ≤ length area.old) × (at < 2 ^ 32) }
    ensures { Emptied area.old crates at area.new }
{
    let ends = at + Crate::LIMIT;
    area[ends..ends + crates].fill(0);
}

// The record k is the last so far of its crate, and the first where it has none yet.
fn note(area: &mut [u32], at: usize, c: Crate, k: usize)
    requires { (c.0 < crate_limit) × (at + 2 * crate_limit ≤ length area.old) × (at < 2 ^ 32) × (k < 2 ^ 31) }
    ensures { Noted area.old at c.0 k area.new }
{
    let end = at + Crate::LIMIT + c.0;
    if word(area, end) == 0 {
        area[at + c.0] = k as u32;
    }
    area[end] = (k + 1) as u32;
}

/// Writes the ranges of so many records, whose crates are told.
pub(crate) fn range_records<F: Fn(usize) -> Crate>(
    area: &mut [u32],
    at: usize,
    crates: usize,
    count: usize,
    owner: F,
)
    requires room { (crates ≤ crate_limit) × (at + 2 * crate_limit ≤ length area.old) × (at < 2 ^ 32) × (count < 2 ^ 31) }
    requires takes { (k : ℕ) → k < count → F.pre owner k }
    requires there { (k : ℕ) (c : Crate) → k < count → F.post owner k c → c.0 < crates }
    ensures { (f : ℕ → ℕ) → ((k : ℕ) (c : Crate) → F.post owner k c → c.0 ≡ f k) → Filled area.old f count crates at area.new }
{
    clear_ends(area, at, crates);
    for k in 0..count {
        note(area, at, owner(k), k);
    }
}
