//! The questions among the words of an input.
ghost use Rattle.std.specs.Prelude.{◌≡◌, ◌+◌, ◌≤◌, length};
ghost use Rattle.printer.specs.QuestionKinds.{question_kind_of};
ghost use Rattle.printer.specs.Printed.{is_question, is_head, questions_at, is_argument, whole_at, asks_route, reach_at, question_at, viewer_at};

use find_path_spec::{Query, Question};
use reach::parts::Viewer;
use snapshot::ids::{DefinitionId, ModuleId};
use snapshot::kind::{Kind, Size};
use snapshot::reading::{field, kind, payload};

/// The kinds of what is asked: a path, a path with its route, and the reach of a module.
// Three kinds of the format; that a number is none of them is the `None` of `of`.
#[derive(Clone, Copy, PartialEq, Eq)]
pub enum QuestionKind {
    Path = 12,
    Route = 14,
    Reach = 15,
}

// A `match` on the numbers of the format, as in `DefinitionKind::of` of `snapshot`; a table would have a hole at 13.
impl QuestionKind {
    /// The kind with a number.
    pub fn of(number: usize) -> Option<QuestionKind>
        ensures { result ≡ question_kind_of number }
    {
        match number {
            12 => Some(QuestionKind::Path),
            14 => Some(QuestionKind::Route),
            15 => Some(QuestionKind::Reach),
            _ => None,
        }
    }
}

// Whether a kind is a question's.
fn is_question(kind: usize) -> bool
    ensures { result ≡ is_question kind }
{
    matches!(
        QuestionKind::of(kind),
        Some(QuestionKind::Path | QuestionKind::Route)
    )
}

// Whether a kind is one of these.
fn is_head(kind: usize) -> bool
    ensures { result ≡ is_head kind }
{
    QuestionKind::of(kind).is_some()
}

/// The place of the first head of a question, or the number of words.
// `questions_at` answers that number for none: by `find` over the range, the `None` would be turned into it.
pub fn first_question(words: &[u32]) -> usize
    ensures { (result ≡ questions_at words.now) × (result ≤ length words.now) }
{
    for i in 0..words.len() {
        if is_head(kind(words, i)) {
            return i;
        }
    }
    words.len()
}

fn is_argument(words: &[u32], i: usize) -> bool
    ensures { result ≡ is_argument words.now i }
{
    kind(words, i) == Kind::ARGUMENT
}

/// Whether a whole question stands at a place.
pub fn is_whole(words: &[u32], at: usize) -> bool
    ensures { result ≡ whole_at words.now at }
{
    if words.len() <= at {
        return false;
    }
    let head = is_question(kind(words, at));
    let first = is_argument(words, at + 1) & is_argument(words, at + 2);
    let second = is_argument(words, at + 3) & is_argument(words, at + 4);
    let third = is_argument(words, at + 5) & is_argument(words, at + 6);
    let room = at + Size::QUESTION <= words.len();
    head & (first & (second & (third & room)))
}

/// Whether a whole question for a reach stands at a place.
pub fn is_reach(words: &[u32], at: usize) -> bool
    ensures { result ≡ reach_at words.now at }
{
    if words.len() <= at {
        return false;
    }
    let head = QuestionKind::of(kind(words, at)) == Some(QuestionKind::Reach);
    let first = is_argument(words, at + 1) & is_argument(words, at + 2);
    let second = is_argument(words, at + 3) & is_argument(words, at + 4);
    let room = at + Size::REACH <= words.len();
    head & (first & (second & room))
}

/// Whether the question at a place asks for its route.
pub fn asks_route(words: &[u32], at: usize) -> bool
    ensures { result ≡ asks_route words.now at }
{
    QuestionKind::of(kind(words, at)) == Some(QuestionKind::Route)
}

/// The question at a place.
// The words of `reports::questions::question_of` in another order, the first in a head with a kind: by one reader each field would take its
// place as a parameter.
pub fn question_at(words: &[u32], at: usize) -> Question
    ensures { result ≡ question_at words.now at }
{
    let q = Query {
        ns: field(words, at, 1),
        definition: DefinitionId(payload(words, at)),
        from: ModuleId(field(words, at, 2)),
        prefix: field(words, at, 3),
        options: field(words, at, 4),
        limit: field(words, at, 6),
    };
    Question {
        query: q,
        fuel: field(words, at, 5),
    }
}

/// Who asks for a reach at a place.
// As `exports::viewer_of`, whose first word is no head with a kind in it.
pub fn viewer_at(words: &[u32], at: usize) -> Viewer
    ensures { result ≡ viewer_at words.now at }
{
    Viewer {
        from: ModuleId(payload(words, at)),
        prefix: field(words, at, 1),
        options: field(words, at, 2),
        fuel: field(words, at, 3),
        limit: field(words, at, 4),
    }
}
