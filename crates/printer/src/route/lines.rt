//! The line of a question with its route, on words that were checked.
ghost use Rattle.std.specs.Prelude.{◌≡◌, ◌≤◌, length};
ghost use Rattle.snapshot.specs.Limits.{area_limit, routed_limit};
ghost use Rattle.accept.specs.Post.{Judged};
ghost use Rattle.printer.specs.route.Routed.{RoutedOn};

use crate::route::put_routed;
use accept::check::Refused;
use accept::opened::Snapshot;
use answer::checked::report_on;
use find_path_spec::Question;
use line::put_refusal;
use snapshot::ids::Area;
use snapshot::layout::Layout;
use snapshot::records::Records;

/// Puts the line of a question on checked words with its route and its end at the front, and answers its length. The words stay checked.
// As `line_on`, with `put_routed` and a longer buffer; its clause is stated of the line with the route.
pub fn routed_line_on(
    words: &[u32],
    area: &mut Area,
    c: Result<Layout, Refused>,
    question: Question,
    out: &mut [u8],
) -> usize
    requires { Judged words.now area.old c × (routed_limit ≤ length out.old) }
    ensures { RoutedOn words.now question c area.new out.old out.new result }
{
    let r = report_on(words, area, c, question);
    match c {
        Err(_) => put_refusal(out, r.number),
        Ok(layout) => {
            let records = Records { words, layout };
            let db = Snapshot { records, area };
            put_routed(out, &db, question.query.from, r)
        }
    }
}
