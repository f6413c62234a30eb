//! The heads of the chains, and one number more.
ghost use Rattle.std.specs.Prelude.{◌≡◌, ◌+◌, ◌^◌, ◌≤◌, ◌<◌, length};
ghost use Rattle.check_records.specs.chains.Chains.{Cleared, linked};

use snapshot::table::Tables;

/// The first word of the heads, a word a key, of the marks, a word a module, and of the links, a word a number. What lies before the end of
/// the marks is cleared at first; the word there is marked for definitions of no module.
#[derive(Clone, Copy)]
pub struct Chains;

impl Chains {
    /// How many keys there are.
    pub const KEYS: usize = 383;

    pub const HEADS: usize = Tables::ROWS;

    pub const MARKS_END: usize = 6336;

    pub const NAME_HEADS: usize = Tables::ROWS;

    pub const SCOPE_HEADS: usize = 4544;

    pub const EXTERN_HEADS: usize = 4928;

    pub const CHILD_MARKS: usize = 5312;

    pub const MODULE_MARKS: usize = 5824;

    pub const NAME_LINKS: usize = 6344;

    pub const SCOPE_LINKS: usize = 8392;

    pub const EXTERN_LINKS: usize = 10736;
}

/// Clears the words from a place to another; the others stay.
pub fn clear(area: &mut [u32], from: usize, to: usize)
    requires { to ≤ length area.old }
    ensures { Cleared area.old area.new from to }
{
    if from < to {
        area[from..to].fill(0);
    }
}

/// Puts a number before those with its key.
pub fn link(area: &mut [u32], heads: usize, links: usize, key: usize, n: usize)
    requires { (heads + key < length area.old) × (links + n < length area.old) × (n < 2 ^ 31) }
    ensures { area.new ≡ linked area.old heads links key n }
{
    area[links + n] = area[heads + key];
    area[heads + key] = (n + 1) as u32;
}
