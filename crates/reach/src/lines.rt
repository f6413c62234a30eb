//! The line of a reach on words that were checked.
ghost use Rattle.std.specs.Prelude.{◌≡◌, ◌≤◌, length};
ghost use Rattle.snapshot.specs.Limits.{area_limit, line_limit};
ghost use Rattle.accept.specs.Post.{Judged};
ghost use Rattle.reach.specs.Reached.{ReachLineOn};

use crate::one_line::put_reach;
use crate::parts::Viewer;
use crate::parts::tell::tell_reach;
use crate::reach_on;
use accept::check::Refused;
use snapshot::ids::Area;
use snapshot::layout::Layout;

/// Puts the line of a reach on checked words and its end at the front, and answers its length. The words stay checked.
pub fn reach_line_on(
    words: &[u32],
    area: &mut Area,
    c: Result<Layout, Refused>,
    v: Viewer,
    out: &mut [u8],
) -> usize
    requires { Judged words.now area.old c × (line_limit ≤ length out.old) }
    ensures { ReachLineOn words.now v c area.new out.old out.new result }
{
    let mut counts = [0usize; 21];
    let number = tell_reach(reach_on(words, area, c, v), &mut counts);
    put_reach(out, number, &counts)
}
