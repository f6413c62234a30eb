//! The first record of each item.
ghost use Rattle.std.specs.Prelude.{◌≡◌, List, ℕ, ◌+◌, ◌*◌, ◌<◌};
ghost use Rattle.snapshot.specs.Sizes.{scope_size};
ghost use Rattle.snapshot.specs.Records.{scope_at};
ghost use Rattle.snapshot.specs.Layouts.{scope_base, records_of};
ghost use Rattle.snapshot.specs.Laid.{snap_by};
ghost use Rattle.reach.specs.parts.Reach.{is_met};

use hir_def::items::item_at;
use snapshot::kind::Size;
use snapshot::records::Records;

/// Whether a scope record before the one numbered k is for the same item.
pub fn is_met(records: &Records, k: usize) -> bool
    requires { k < records.now.layout.scopes }
    ensures { (A : List ℕ) → result ≡ is_met (snap_by records.now A)
        (records_of scope_at scope_size records.now.words.now (scope_base records.now.layout) k)
        (scope_at records.now.words.now (scope_base records.now.layout + scope_size * k)) }
{
    // `base + size * k` as in a `Span`: a method for it would be this sum under a name.
    let base = records.layout.scope_base();
    let item = item_at(records, base + Size::SCOPE * k);
    for j in 0..k {
        if item_at(records, base + Size::SCOPE * j) == item {
            return true;
        }
    }
    false
}
