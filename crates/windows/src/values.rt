//! Questions placed and turns, on a state by value.
ghost use Rattle.snapshot.specs.Refusals.{fault_number};
ghost use Rattle.reports.specs.questions.Questions.{question_of};
ghost use Rattle.windows.specs.state.Words.{words_of};
ghost use Rattle.windows.specs.Windows.{Placed, Turned, left, told};

use crate::state::rows::{Windows, next_waiting};
use crate::state::serve::{after_serving, asked_by, free_window, with_question};
use crate::turns::{Served, Turning};
use answer::find_path;
use snapshot::kind::Size;
use snapshot::refusal::Refusal;

/// The state with a question placed, or why it is refused.
pub fn placed(
    windows: Windows,
    window: usize,
    question: &[u32; Size::QUESTION],
) -> Result<Windows, Refusal>
    ensures { Placed (words_of windows) window (question_of question.now) (words_of (left windows result)) (fault_number result) }
{
    let free = free_window(windows, window)?;
    Ok(with_question(windows, free, question))
}

/// The state after a turn, and what it served.
pub fn turned(windows: Windows, words: &[u32], area: &mut [u32]) -> Turning
    ensures { Turned (words_of windows) words.now area.old (words_of result.windows) area.new (told result.served) }
{
    let Some(window) = next_waiting(windows) else {
        return Turning {
            windows,
            served: None,
        };
    };
    let report = find_path(words, area, asked_by(windows, window));
    let windows = after_serving(windows, window);
    Turning {
        windows,
        served: Some(Served { window, report }),
    }
}
