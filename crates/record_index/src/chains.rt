//! Chains: each record has a key, and leads to the next one with the same key.
ghost use Rattle.std.specs.Prelude.{◌≡◌, ℕ, ◌+◌, ◌*◌, ◌%◌, ◌≤◌, ◌<◌, ◌^◌, length};
ghost use Rattle.snapshot.specs.Layouts.{row_words};
ghost use Rattle.record_index.specs.Index.{import_key, keys_of, heads_of, links_of, count_of};
ghost use Rattle.record_index.specs.Post.{Room, Cleared, Linking, Threaded};

use crate::halves::{half, put_half};
use snapshot::ids::{Crate, ModuleId};
use snapshot::layout::Layout;
use snapshot::table::Tables;

/// The scope records of a module, those of items with the same rest, the imports of a crate of such items.
#[derive(Clone, Copy)]
pub enum Chain {
    Modules,
    Items,
    Imports,
}

/// The key of an import of a crate, of an item that is known by n.
#[inline]
pub fn import_key(c: Crate, n: usize) -> usize
    ensures { result ≡ import_key c.0 n }
{
    (n % Tables::IMPORT_KEYS + c.0 % Tables::IMPORT_KEYS) % Tables::IMPORT_KEYS
}

impl Chain {
    /// How many keys it has.
    #[inline]
    pub fn keys(self) -> usize
        ensures { result ≡ keys_of self }
    {
        match self {
            Chain::Modules => ModuleId::LIMIT,
            Chain::Items => Tables::ITEM_KEYS,
            Chain::Imports => Tables::IMPORT_KEYS,
        }
    }

    /// The half of its first head.
    #[inline]
    pub fn heads(self) -> usize
        ensures { result ≡ heads_of self }
    {
        match self {
            Chain::Modules => 2 * Tables::HEADS,
            Chain::Items => 2 * Tables::HEADS + ModuleId::LIMIT,
            Chain::Imports => 2 * Tables::HEADS + ModuleId::LIMIT + Tables::ITEM_KEYS,
        }
    }

    /// The half of its first link.
    #[inline]
    pub fn links(self, layout: &Layout) -> usize
        requires { layout.now.scopes < 2 ^ 32 }
        ensures { result ≡ links_of layout.now self }
    {
        match self {
            Chain::Modules => 2 * Tables::LINKS,
            Chain::Items => 2 * Tables::LINKS + layout.scopes,
            Chain::Imports => 2 * Tables::LINKS + 2 * layout.scopes,
        }
    }

    /// How many records it has.
    #[inline]
    pub fn count(self, layout: &Layout) -> usize
        ensures { result ≡ count_of layout.now self }
    {
        match self {
            Chain::Modules => layout.scopes,
            Chain::Items => layout.scopes,
            Chain::Imports => layout.imports,
        }
    }
}

// Each key has no record yet: two heads a word.
fn clear_heads(area: &mut [u32], heads: usize, keys: usize, end: usize)
    requires room { Room heads keys (heads + keys) end (length area.old) }
    requires whole { (heads % 2 ≡ 0) × (keys % 2 ≡ 0) }
    ensures { Cleared area.old heads keys end area.new }
{
    area[heads / 2..(heads + keys) / 2].fill((end * 65537) as u32);
}

// The record k goes to the front of its key's chain.
fn link(area: &mut [u32], heads: usize, keys: usize, links: usize, key: usize, k: usize)
    requires { Room heads keys links (k + 1) (length area.old) × (key < keys) }
    ensures { Linking area.old heads keys links key k area.new }
{
    let first = half(area, heads + key);
    put_half(area, links + k, first);
    put_half(area, heads + key, k);
}

/// Chains so many records, whose keys are told.
#[inline(always)]
pub(crate) fn chain_records<F: Fn(usize) -> usize>(
    area: &mut [u32],
    heads: usize,
    keys: usize,
    links: usize,
    count: usize,
    key: F,
)
    requires room { Room heads keys links count (length area.old) }
    requires whole { (heads % 2 ≡ 0) × (keys % 2 ≡ 0) }
    requires takes { (k : ℕ) → k < count → F.pre key k }
    requires there { (k c : ℕ) → k < count → F.post key k c → c < keys }
    ensures { (f : ℕ → ℕ) → ((k c : ℕ) → F.post key k c → c ≡ f k) → Threaded area.old f count keys heads links 0 area.new }
{
    clear_heads(area, heads, keys, count);
    for k in (0..count).rev() {
        link(area, heads, keys, links, key(k), k);
    }
}
