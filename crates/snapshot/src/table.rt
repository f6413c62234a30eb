//! The tables that the check leaves in the work area.
//! They are words of the work area, so where there may be none 0 stands for it; `opt_module` makes an `Option` of such a word.
ghost use Rattle.std.specs.Prelude.{◌≡◌, ◌+◌, ◌*◌, ◌^◌, ◌<◌};
ghost use Rattle.snapshot.specs.Layouts.{name_head, module_map, module_head, module_parent, map_root, own_map};

use crate::ids::{Crate, ModuleId, Name, WordCount};
use crate::kind::Size;
use crate::reading::word;

/// The first word of each table, and the first word past them.
#[derive(Clone, Copy)]
pub struct Tables;

impl Tables {
    /// The keys of chains: modules, rests of scope records' items, rests of imports' items.
    pub const KEYS: usize = ModuleId::LIMIT + Tables::ITEM_KEYS + Tables::IMPORT_KEYS;

    pub const ITEM_KEYS: usize = 512;

    pub const IMPORT_KEYS: usize = 256;

    /// A word a name: its head.
    pub const NAMES: usize = 0;
    /// Three words a module: its map, the map's head, its parent +1.
    pub const MODULES: usize = Name::LIMIT;
    /// A word a map: its root. A map has a module.
    pub const ROOTS: usize = Tables::MODULES + 3 * ModuleId::LIMIT;
    /// A word a crate: its own map +1.
    pub const CRATES: usize = Tables::ROOTS + ModuleId::LIMIT;

    /// The first word past what the check writes as it goes; the index follows.
    pub const ROWS: usize = Tables::CRATES + Crate::LIMIT;
    /// Half a word a key of a chain: the key's first record, or the number of all.
    pub const HEADS: usize = Tables::ROWS;
    /// Half a word a record of a chain: the next one with its key, or the number of all.
    pub const LINKS: usize = Tables::HEADS + Tables::KEYS / 2;

    /// Two words a crate: its first dependency, and one past its last, or 0 where it has none. The second words stand after all the first.
    pub const DEPENDENCIES: usize = Tables::LINKS + WordCount::SNAPSHOT / Size::SCOPE;
    /// The same of externs.
    pub const EXTERNS: usize = Tables::DEPENDENCIES + 2 * Crate::LIMIT;

    pub const END: usize = Tables::EXTERNS + 2 * Crate::LIMIT;
}

/// The head of a name.
pub fn name_head(area: &[u32], n: Name) -> usize
    ensures { result ≡ name_head area.now n.0 }
{
    word(area, n.0)
}

/// The map of a module.
pub fn module_map(area: &[u32], m: ModuleId) -> usize
    requires { m.0 < 2 ^ 32 }
    ensures { result ≡ module_map area.now m.0 }
{
    word(area, Tables::MODULES + 3 * m.0)
}

/// The head of a module's map.
pub fn module_head(area: &[u32], m: ModuleId) -> usize
    requires { m.0 < 2 ^ 32 }
    ensures { result ≡ module_head area.now m.0 }
{
    word(area, Tables::MODULES + 3 * m.0 + 1)
}

/// The parent of a module, +1.
pub fn module_parent(area: &[u32], m: ModuleId) -> usize
    requires { m.0 < 2 ^ 32 }
    ensures { result ≡ module_parent area.now m.0 }
{
    word(area, Tables::MODULES + 3 * m.0 + 2)
}

/// The root of a map.
pub fn map_root(area: &[u32], map: usize) -> ModuleId
    requires { map < 2 ^ 32 }
    ensures { result.0 ≡ map_root area.now map }
{
    ModuleId(word(area, Tables::ROOTS + map))
}

/// The own map of a crate, +1.
// The word of the table, as the definition `own_map` has it: in an accepted snapshot each crate has an own map, so readers take the 1 away, where
// an `Option` would be matched for a case that never comes.
pub fn own_map(area: &[u32], krate: Crate) -> usize
    requires { krate.0 < 2 ^ 32 }
    ensures { result ≡ own_map area.now krate.0 }
{
    word(area, Tables::CRATES + krate.0)
}
