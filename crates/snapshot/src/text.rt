//! The text of a name, handed back as the part of the snapshot that holds it.
ghost use Rattle.std.specs.Prelude.{◌≡◌};
ghost use Rattle.snapshot.specs.reading.Words.{text_at};
ghost use Rattle.snapshot.specs.Layouts.{name_head};

use crate::ids::Name;
use crate::kind::text_words;
use crate::reading::payload;
use crate::table::name_head;

/// The words after a name's head that hold its text.
pub fn text_at(words: &[u32], head: usize) -> &[u32]
    ensures { result.now ≡ text_at words.now head }
{
    if words.len() <= head {
        return &words[..0];
    }
    let a = head + 1;
    let n = text_words(payload(words, head));
    if words.len() - a < n {
        return &words[a..];
    }
    let e = a + n;
    &words[a..e]
}

/// The text of a name.
pub fn text_of<'a>(words: &'a [u32], area: &[u32], n: Name) -> &'a [u32]
    ensures { result.now ≡ text_at words.now (name_head area.now n.0) }
{
    text_at(words, name_head(area, n))
}
