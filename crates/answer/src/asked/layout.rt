//! The layout of words that an earlier call accepted.
ghost use Rattle.std.specs.Prelude.{◌≡◌, ◌^◌, ◌≤◌, ◌<◌};
ghost use Rattle.snapshot.specs.Layouts.{word_count};
ghost use Rattle.answer.specs.asked.StillChecked.{layout_with, layout_of};

use snapshot::kind::Size;
use snapshot::layout::Layout;

/// The layout of so many words, from the numbers that their check wrote.
pub(crate) fn layout_of(words: usize, counts: &[usize; 14]) -> Layout
    requires { (word_count (layout_with 0 counts.now) ≤ words) × (words < 2 ^ 32) }
    ensures { result ≡ layout_of words counts.now }
{
    let mut l = Layout {
        text: 0,
        names: counts[2],
        crates: counts[3],
        dependencies: counts[4],
        maps: counts[5],
        modules: counts[6],
        children: counts[7],
        preludes: counts[8],
        definitions: counts[9],
        scopes: counts[10],
        imports: counts[11],
        externs: counts[12],
        members: counts[13],
        latest: 0,
    };
    l.text = words - (l.member_base() + Size::MEMBER * l.members);
    l
}
