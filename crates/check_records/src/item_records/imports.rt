//! Kind 10: an import of a crate.
ghost use Rattle.std.specs.Prelude.{◌≡◌, List, ◌+◌};
ghost use Rattle.snapshot.specs.Sizes.{import_size};
ghost use Rattle.snapshot.specs.Records.{Map, import_at};
ghost use Rattle.snapshot.specs.Layouts.{snap_with};
ghost use Rattle.check_rules.specs.Tests.{import_range, import_defined};
ghost use Rattle.check_rules.specs.Steps.{import_step};
ghost use Rattle.check_records.specs.record_rules.Stands.{Ready, Stands, Answered, counts_in};

use crate::item_records::definitions::ns_placed;
use crate::record_rules::judge::judge;
use snapshot::ids::Namespace;
use snapshot::layout::Layout;
use snapshot::record::{
    import_bits, import_container, import_definition, import_name, import_ns, import_owner,
};
use snapshot::refusal::Refusal;

fn in_range(words: &[u32], at: usize) -> bool
    ensures { result ≡ import_range (import_at words.now at) }
{
    (import_ns(words, at) <= Namespace::LIMIT) & (import_bits(words, at) <= 3)
}

fn defined(words: &[u32], l: Layout, at: usize) -> bool
    ensures { result ≡ import_defined (counts_in l) (import_at words.now at) }
{
    let owner = import_owner(words, at);
    let definition = import_definition(words, at);
    let name = import_name(words, at);
    let container = import_container(words, at);
    (owner.0 < l.crates)
        & (definition.0 < l.definitions)
        & (name.0 < l.names)
        & (container.0 < l.modules)
}

/// An import.
pub fn step(words: &[u32], area: &[u32], l: Layout, at: usize) -> Result<Layout, Refusal>
    requires { Ready words.now area.now l at (at + import_size) }
    ensures { (ms : List Map) → Stands words.now area.now 10 at l ms
        → Answered words.now area.now 10 (at + import_size)
        (import_step (snap_with words.now area.now l ms) (import_at words.now at)) result }
{
    let placed = ns_placed(words, l, import_ns(words, at), import_definition(words, at));
    judge(
        in_range(words, at),
        defined(words, l, at),
        false,
        placed,
        true,
    )?;
    let mut m = l;
    m.imports = l.imports + 1;
    Ok(m)
}
