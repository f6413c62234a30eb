//! The line of a question.
ghost use Rattle.std.specs.Prelude.{◌≡◌, ◌≤◌, ◌<◌, length};
ghost use Rattle.snapshot.specs.Limits.{word_limit, area_limit, routed_limit};
ghost use Rattle.accept.specs.Post.{Judged};
ghost use Rattle.printer.specs.Printed.{Printed};

use crate::questions::{asks_route, is_reach, is_whole, question_at, viewer_at};
use crate::route::lines::routed_line_on;
use accept::check::Refused;
use answer::checked::lines::line_on;
use line::put_refusal;
use reach::lines::reach_line_on;
use snapshot::ids::Area;
use snapshot::kind::Size;
use snapshot::layout::Layout;
use snapshot::refusal::Refusal;

/// How many bytes a line has, and the place after what it is for.
#[derive(Clone, Copy)]
pub struct Turn {
    pub bytes: usize,
    pub next: usize,
}

/// The line of what stands at a place: of a whole question, with its route where that is asked for, of a reach, or the refusal of words
/// that are none. It stands at the front of the bytes, and those past it stay.
pub fn next_line(
    words: &[u32],
    snapshot: &[u32],
    area: &mut Area,
    c: Result<Layout, Refused>,
    at: usize,
    out: &mut [u8],
) -> Turn
    requires { Judged snapshot.now area.old c × (routed_limit ≤ length out.old) × (at < length words.now) × (length words.now ≤ word_limit) }
    ensures { Printed words.now snapshot.now c at area.new out.old out.new result }
{
    if is_reach(words, at) {
        let v = viewer_at(words, at);
        let n = reach_line_on(snapshot, area, c, v, out);
        return Turn {
            bytes: n,
            next: at + Size::REACH,
        };
    }
    if !is_whole(words, at) {
        let n = put_refusal(out, Refusal::Question.number());
        return Turn {
            bytes: n,
            next: words.len(),
        };
    }
    let q = question_at(words, at);
    let next = at + Size::QUESTION;
    if asks_route(words, at) {
        let n = routed_line_on(snapshot, area, c, q, out);
        return Turn {
            bytes: n,
            next: next,
        };
    }
    let n = line_on(snapshot, area, c, q, out);
    Turn {
        bytes: n,
        next: next,
    }
}
