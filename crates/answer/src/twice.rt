//! A question with two fuels.
ghost use Rattle.answer.specs.Twice.{AnswersTwice};

use crate::find_path;
use find_path_spec::{Query, Question, Report};

/// The reports of one question with two fuels.
#[derive(Clone, Copy)]
pub struct Reports {
    pub first: Report,
    pub second: Report,
}

/// Puts a question with two fuels, each with a work area of its own.
pub fn find_path_twice(
    words: &[u32],
    area: &mut [u32],
    other: &mut [u32],
    q: Query,
    fuel: usize,
    more: usize,
) -> Reports
    ensures { AnswersTwice words.now area.old other.old q fuel more area.new
        other.new result }
{
    let a = Question {
        query: q,
        fuel: fuel,
    };
    let first = find_path(words, area, a);
    let b = Question {
        query: q,
        fuel: more,
    };
    let second = find_path(words, other, b);
    Reports {
        first: first,
        second: second,
    }
}
