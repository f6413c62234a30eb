//! The line of a question on words that were checked.
ghost use Rattle.std.specs.Prelude.{◌≡◌, ◌≤◌, length};
ghost use Rattle.snapshot.specs.Limits.{area_limit, line_limit};
ghost use Rattle.accept.specs.Post.{Judged};
ghost use Rattle.answer.specs.checked.Lines.{LineOn};

use crate::checked::report_on;
use accept::check::Refused;
use accept::opened::Snapshot;
use find_path_spec::Question;
use line::{put_line, put_refusal};
use snapshot::ids::Area;
use snapshot::layout::Layout;
use snapshot::records::Records;

/// Puts the line of a question on checked words and its end at the front, and answers its length. The words stay checked.
// `routed_line_on` differs in the writer and in how many bytes serve: a writer as a closure would have to carry that bound.
pub fn line_on(
    words: &[u32],
    area: &mut Area,
    c: Result<Layout, Refused>,
    question: Question,
    out: &mut [u8],
) -> usize
    requires { Judged words.now area.old c × (line_limit ≤ length out.old) }
    ensures { LineOn words.now question c area.new out.old out.new result }
{
    let r = report_on(words, area, c, question);
    match c {
        Err(_) => put_refusal(out, r.number),
        Ok(layout) => {
            let records = Records { words, layout };
            let db = Snapshot { records, area };
            put_line(out, &db, question.query.from, r)
        }
    }
}
