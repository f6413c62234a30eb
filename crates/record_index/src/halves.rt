//! Halves of words: a number below 65,536 each, two in a word.
ghost use Rattle.std.specs.Prelude.{◌≡◌, ◌*◌, ◌/◌, ◌≤◌, ◌<◌, length};
ghost use Rattle.snapshot.specs.Layouts.{row_words};
ghost use Rattle.record_index.specs.Halves.{half_at};
ghost use Rattle.record_index.specs.Post.{Put};

use snapshot::reading::word;

/// The half i.
#[inline]
pub fn half(area: &[u32], i: usize) -> usize
    ensures { (result ≡ half_at area.now i) × (result < 65536) }
{
    let w = word(area, i / 2);
    if i % 2 == 0 {
        return w % 65536;
    }
    w / 65536 % 65536
}

/// Writes the half i.
pub(crate) fn put_half(area: &mut [u32], i: usize, v: usize)
    requires { (2 * row_words ≤ i) × (i / 2 < length area.old) × (v < 65536) }
    ensures { Put area.old i v area.new }
{
    let at = i / 2;
    let w = word(area, at);
    if i % 2 == 0 {
        area[at] = (w / 65536 % 65536 * 65536 + v) as u32;
        return;
    }
    area[at] = (v * 65536 + w % 65536) as u32;
}
