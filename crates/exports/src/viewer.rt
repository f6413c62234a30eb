//! Who asks for a reach, as words.
ghost use Rattle.std.specs.Prelude.{◌≡◌};
ghost use Rattle.exports.specs.Reaches.{viewer_of};

use reach::parts::Viewer;
use snapshot::ids::ModuleId;
use snapshot::reading::word;

/// Viewing module, prefix, options, fuel and limit.
pub(crate) fn viewer_of(words: &[u32]) -> Viewer
    ensures { result ≡ viewer_of words.now }
{
    Viewer {
        from: ModuleId(word(words, 0)),
        prefix: word(words, 1),
        options: word(words, 2),
        fuel: word(words, 3),
        limit: word(words, 4),
    }
}
