//! The line of a question put to words that nobody checked yet.
ghost use Rattle.answer.specs.Lined.{Lined};

use crate::area::{clear, clear_front};
use crate::checked::lines::line_on;
use accept::check::check;
use find_path_spec::Question;
use line::{LineBytes, put_refusal};
use snapshot::refusal::Refusal;

/// Puts the line of a question on the words of a snapshot at the front, with its end (byte 10), and answers how many bytes these
/// are. The work area is left as `find_path` leaves it. With fewer than `LineBytes::LIMIT` bytes it answers 0 and puts nothing.
// No `Result`: the C interface has a length, 0 where nothing is put; a refusal is a line as any.
pub fn find_line(words: &[u32], area: &mut [u32], question: Question, out: &mut [u8]) -> usize
    ensures { Lined words.now area.old question out.old area.new out.new result }
{
    if out.len() < LineBytes::LIMIT {
        clear_front(area);
        return 0;
    }
    let Some(front) = area.first_chunk_mut() else {
        return put_refusal(out, Refusal::Area.number());
    };
    let c = check(words, front);
    let n = line_on(words, front, c, question, out);
    clear(front);
    n
}
