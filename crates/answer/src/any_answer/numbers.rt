//! The question and the answer as numbers.
ghost use Rattle.answer.specs.any_answer.Any.{AnyIn};

use crate::any_answer::entry::any_path;
use snapshot::reading::word;

/// Namespace, definition and module as words. Writes the outcome, the kind, how many times `super` and how many names, the names, and the places of
/// the records by which they are read; answers the number of the refusal, 0 for none.
// The C interface takes a number.
pub fn any_path_in(
    words: &[u32],
    area: &mut [u32],
    question: &[u32],
    head: &mut [usize; 4],
    names: &mut [usize; 16],
    route: &mut [usize; 16],
) -> usize
    ensures { AnyIn words.now area.old question.now area.new head.new
        names.new route.new result }
{
    let ns = word(question, 0);
    let definition = word(question, 1);
    let from = word(question, 2);
    let r = any_path(words, area, ns, definition, from);
    let told = r.names;
    let places = r.route;
    let front = [r.outcome, r.kind, r.supers, r.count];
    *head = front;
    *names = told;
    *route = places;
    r.number
}
