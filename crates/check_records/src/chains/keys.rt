//! The keys. Records that are the same have the same key.
ghost use Rattle.std.specs.Prelude.{◌≡◌, ◌+◌, ◌^◌, ◌<◌, get_or};
ghost use Rattle.snapshot.specs.Lists.{rows};
ghost use Rattle.snapshot.specs.Records.{name_at};
ghost use Rattle.check_records.specs.chains.Chains.{mixed, name_key, record_key, slot_of};

use crate::chains::chain::Chains;
use snapshot::ids::{DefinitionKind, ModuleId};
use snapshot::kind::text_words;
use snapshot::reading::{field, payload};

// The bytes of a text mixed with the n words after a head.
fn mix(words: &[u32], head: usize, bytes: usize, n: usize) -> usize
    requires { (n < 2 ^ 32) × (bytes < 2 ^ 32) }
    ensures { result ≡ mixed bytes (rows (λ i. get_or words.now (head + 1 + i) 0) 0 n) }
{
    let mut a = bytes;
    for i in 0..n {
        a = (a + field(words, head, 1 + i)) * 1640531527 % 4294967296;
    }
    a
}

/// The key of the name with its head at a place.
pub fn name_key(words: &[u32], at: usize) -> usize
    ensures { result ≡ name_key (name_at words.now at) }
{
    let bytes = payload(words, at);
    mix(words, at, bytes, text_words(bytes)) % Chains::KEYS
}

/// The key of the record with its head at a place: its owner, its first field and the last one that counts.
pub fn record_key(words: &[u32], at: usize, fields: usize) -> usize
    ensures { result ≡ record_key words.now fields at }
{
    (payload(words, at) * 37 + field(words, at, 1) * 5 + field(words, at, fields)) % Chains::KEYS
}

/// The module of the definition with its head at a place, or the number past all modules for a definition of another kind.
pub fn module_slot(words: &[u32], at: usize) -> usize
    ensures { result ≡ slot_of words.now at }
{
    if payload(words, at) != DefinitionKind::Module as usize {
        return ModuleId::LIMIT;
    }
    field(words, at, 1)
}
