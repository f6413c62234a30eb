//! The import map of a crate, after import_map.rs.

ghost use Rattle.std.specs.Prelude.{◌≡◌, List, ℕ, ◌≤◌};
ghost use Rattle.snapshot.specs.Sizes.{import_size};
ghost use Rattle.snapshot.specs.Records.{import_at};
ghost use Rattle.snapshot.specs.Layouts.{import_base};
ghost use Rattle.snapshot.specs.Laid.{snap_by};
ghost use Rattle.record_index.specs.Index.{import_key, key_of, Follows};
ghost use Rattle.record_index.specs.declared.chains.Chain.TheVariants.{Imports};
ghost use Rattle.hir_def.specs.Keys.{number_of};
ghost use Rattle.hir_def.specs.ImportMap.{is_import, is_hidden, is_unstable};
ghost use Rattle.hir_def.specs.Entries.{NextOf};

use crate::chain::{next_in_chain, number_of};
use crate::items::item_of;
use crate::{Item, Place};
use accept::opened::Snapshot;
use record_index::chains::{Chain, import_key};
use snapshot::ids::Crate;
use snapshot::record::{import_bits, import_definition, import_ns, import_owner};
use snapshot::records::Records;

// Whether the import with its head at a place is one of the crate's, of the item.
// An import's owner is a crate and an entry's a module, at other offsets: `item_scope::is_for` has this shape over other readers.
fn is_import(records: &Records, h: usize, c: Crate, item: Item) -> bool
    ensures { (A : List ℕ) → result ≡ is_import (snap_by records.now A) c.0 item (import_at records.now.words.now h) }
{
    if import_owner(records.words, h) != c {
        return false;
    }
    let ns = import_ns(records.words, h);
    let d = import_definition(records.words, h);
    item_of(records, ns, d) == item
}

/// The next of the crate's imports of the item, from the import number k on, where k is 0 or follows one of them.
pub fn import_info_for(db: &Snapshot, k: usize, c: Crate, item: Item) -> Option<Place>
    requires { (k ≤ db.now.records.layout.imports)
        × Follows (key_of db.now.records.words.now db.now.records.layout Imports) (import_key c.0 (number_of item)) k }
    ensures { (A : List ℕ) → NextOf (is_import (snap_by db.now.records A) c.0 item) import_at import_size
        db.now.records.words.now (import_base db.now.records.layout) db.now.records.layout.imports k result }
{
    let test = |h| is_import(&db.records, h, c, item);
    let key = import_key(c, number_of(item));
    next_in_chain(db, Chain::Imports, key, k, test)
}

/// Whether the import with its head at a place is hidden.
pub fn is_hidden(words: &[u32], h: usize) -> bool
    ensures { result ≡ is_hidden (import_at words.now h) }
{
    import_bits(words, h) % 2 == 1
}

/// Whether the import with its head at a place is unstable.
pub fn is_unstable(words: &[u32], h: usize) -> bool
    ensures { result ≡ is_unstable (import_at words.now h) }
{
    import_bits(words, h) / 2 % 2 == 1
}
