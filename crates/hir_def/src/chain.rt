//! The records with one key, along their chain.
ghost use Rattle.std.specs.Prelude.{◌≡◌, ℕ, ◌+◌, ◌*◌, ◌%◌, ◌<◌, ◌≤◌};
ghost use Rattle.snapshot.specs.Layouts.{item_keys};
ghost use Rattle.record_index.specs.Index.{keys_of, count_of, base_of, size_of, key_at, key_of, First, Follows};
ghost use Rattle.hir_def.specs.Keys.{number_of};
ghost use Rattle.hir_def.specs.Spans.{Covers};
ghost use Rattle.hir_def.specs.Tests.{Only, NextBy, FirstBy};

use crate::spans::{imports, scopes};
use crate::{Item, Place, Span};
use accept::opened::Snapshot;
use record_index::chains::Chain;
use record_index::halves::half;
use snapshot::records::Records;
use snapshot::table::Tables;

/// What an item is known by.
#[inline]
pub fn number_of(item: Item) -> usize
    ensures { result ≡ number_of item }
{
    match item {
        Item::Mod(m) => m.0,
        Item::Def(_, d) => d.0,
    }
}

/// The key of an item among scope records.
#[inline]
pub fn item_key(item: Item) -> usize
    ensures { result ≡ number_of item % item_keys }
{
    number_of(item) % Tables::ITEM_KEYS
}

// The records of a chain.
#[inline]
fn chained(records: &Records, chain: Chain) -> Span
    ensures { Covers result (base_of records.now.layout chain) (size_of chain) (count_of records.now.layout chain) }
{
    match chain {
        Chain::Modules => scopes(records),
        Chain::Items => scopes(records),
        Chain::Imports => imports(records),
    }
}

// The first record with the key from the record k on, where k is 0 or follows one with it.
fn first_from(db: &Snapshot, chain: Chain, key: usize, k: usize) -> usize
    requires { (k ≤ count_of db.now.records.layout chain) × Follows (key_of db.now.records.words.now db.now.records.layout chain) key k }
    ensures { First (key_of db.now.records.words.now db.now.records.layout chain) (count_of db.now.records.layout chain) key k result }
{
    if 0 < k {
        return half(db.area, chain.links(&db.records.layout) + (k - 1));
    }
    if key < chain.keys() {
        return half(db.area, chain.heads() + key);
    }
    chain.count(&db.records.layout)
}

/// The next of the records with the key whose head passes the test, from the record k on, where k is 0 or follows one with the key.
// `while`: it follows links, so the next number is read.
#[inline]
pub fn next_in_chain<F: Fn(usize) -> bool>(
    db: &Snapshot,
    chain: Chain,
    key: usize,
    k: usize,
    test: F,
) -> Option<Place>
    requires at { (k ≤ count_of db.now.records.layout chain) × Follows (key_of db.now.records.words.now db.now.records.layout chain) key k }
    requires takes { (i : ℕ) → i < count_of db.now.records.layout chain → F.pre test (base_of db.now.records.layout chain + size_of chain * i) }
    ensures { NextBy (Only (key_at db.now.records.words.now db.now.records.layout chain) key (F.post test)) (size_of chain)
        (base_of db.now.records.layout chain) (count_of db.now.records.layout chain) k result }
{
    let span = chained(&db.records, chain);
    let links = chain.links(&db.records.layout);
    let mut j = first_from(db, chain, key, k);
    while j < span.count {
        let h = span.base + span.size * j;
        if test(h) {
            return Some(Place { number: j, head: h });
        }
        j = half(db.area, links + j);
    }
    None
}

/// The head of the first of the records with the key whose head passes the test.
#[inline]
pub fn first_in_chain<F: Fn(usize) -> bool>(
    db: &Snapshot,
    chain: Chain,
    key: usize,
    test: F,
) -> Option<usize>
    requires takes { (i : ℕ) → i < count_of db.now.records.layout chain → F.pre test (base_of db.now.records.layout chain + size_of chain * i) }
    ensures { FirstBy (Only (key_at db.now.records.words.now db.now.records.layout chain) key (F.post test)) (size_of chain)
        (base_of db.now.records.layout chain) (count_of db.now.records.layout chain) result }
{
    let found = next_in_chain(db, chain, key, 0, test)?;
    Some(found.head)
}
