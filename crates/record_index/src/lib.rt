//! The index of accepted words: chains of scope records by module and by item, of imports by crate and item, and where each crate's dependencies and
//! externs stand.
//! Uses `snapshot` alone.
#![tactic(auto)]

ghost use Rattle.std.specs.Prelude.{◌≡◌, ◌+◌, ◌≤◌, ◌<◌, ◌^◌, length};
ghost use Rattle.snapshot.specs.Limits.{word_limit};
ghost use Rattle.snapshot.specs.Layouts.{word_count, table_words, dependency_table, extern_table};
ghost use Rattle.record_index.specs.Index.{item_number, count_of, key_of, Sized};
ghost use Rattle.record_index.specs.Ranges.{dependency_owner_at, extern_owner_at};
ghost use Rattle.record_index.specs.Post.{Made, Filled, Built};

pub mod chains;
pub mod halves;
mod ranges;

use crate::chains::{Chain, chain_records, import_key};
use crate::ranges::range_records;
use snapshot::ids::{DefinitionId, DefinitionKind, Namespace};
use snapshot::kind::Size;
use snapshot::record::{
    definition_first, definition_kind, dependency_owner, extern_owner, import_definition,
    import_ns, import_owner, scope_definition, scope_ns, scope_owner,
};
use snapshot::records::Records;
use snapshot::table::Tables;

// What the item of a namespace and a definition is known by.
fn item_number(records: &Records, ns: usize, d: DefinitionId) -> usize
    requires { (d.0 < records.now.layout.definitions) × (word_count records.now.layout ≤ word_limit) }
    ensures { result ≡ item_number records.now.words.now records.now.layout ns d.0 }
{
    let h = records.layout.definition_base() + Size::DEFINITION * d.0;
    if (ns == Namespace::TYPES)
        & (definition_kind(records.words, h) == DefinitionKind::Module as usize)
    {
        return definition_first(records.words, h);
    }
    d.0
}

// The key of the record k.
fn key(records: &Records, chain: Chain, k: usize) -> usize
    requires { Sized records.now.words.now records.now.layout × (k < count_of records.now.layout chain) }
    ensures { result ≡ key_of records.now.words.now records.now.layout chain k }
{
    let words = records.words;
    match chain {
        Chain::Modules => scope_owner(words, records.layout.scope_base() + Size::SCOPE * k).0,
        Chain::Items => {
            let h = records.layout.scope_base() + Size::SCOPE * k;
            item_number(records, scope_ns(words, h), scope_definition(words, h)) % Tables::ITEM_KEYS
        }
        Chain::Imports => {
            let h = records.layout.import_base() + Size::IMPORT * k;
            let n = item_number(records, import_ns(words, h), import_definition(words, h));
            import_key(import_owner(words, h), n)
        }
    }
}

// Chains all records.
// The copy, which no write to the area can change, and a body for each chain keep what all keys have in common out of the loop.
#[inline(always)]
fn make_chain(records: &Records, area: &mut [u32], chain: Chain)
    requires { (table_words ≤ length area.old) × Sized records.now.words.now records.now.layout }
    ensures { Made records.now.words.now area.old records.now.layout chain area.new }
{
    let own = *records;
    let layout = own.layout;
    let its = |k| key(&own, chain, k);
    chain_records(
        area,
        chain.heads(),
        chain.keys(),
        chain.links(&layout),
        chain.count(&layout),
        its,
    );
}

// Of a kind that belongs to crates: where each crate's records stand.

fn range_dependencies(records: &Records, area: &mut [u32])
    requires { (table_words ≤ length area.old) × Sized records.now.words.now records.now.layout }
    ensures { Filled area.old (dependency_owner_at records.now.words.now records.now.layout)
        records.now.layout.dependencies records.now.layout.crates dependency_table area.new }
{
    let base = records.layout.dependency_base();
    let owner = |k| dependency_owner(records.words, base + Size::DEPENDENCY * k);
    range_records(
        area,
        Tables::DEPENDENCIES,
        records.layout.crates,
        records.layout.dependencies,
        owner,
    );
}

fn range_externs(records: &Records, area: &mut [u32])
    requires { (table_words ≤ length area.old) × Sized records.now.words.now records.now.layout }
    ensures { Filled area.old (extern_owner_at records.now.words.now records.now.layout)
        records.now.layout.externs records.now.layout.crates extern_table area.new }
{
    let base = records.layout.extern_base();
    let owner = |k| extern_owner(records.words, base + Size::EXTERN * k);
    range_records(
        area,
        Tables::EXTERNS,
        records.layout.crates,
        records.layout.externs,
        owner,
    );
}

/// Makes the index of words that have room for it.
pub fn index_records(records: &Records, area: &mut [u32])
    requires { (table_words ≤ length area.old) × Sized records.now.words.now records.now.layout }
    ensures { Built records.now.words.now area.old records.now.layout area.new }
{
    make_chain(records, area, Chain::Modules);
    make_chain(records, area, Chain::Items);
    make_chain(records, area, Chain::Imports);
    range_dependencies(records, area);
    range_externs(records, area);
}
