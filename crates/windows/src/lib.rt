//! Up to eight editor windows that share one search, each with a question that waits or none.
//! Uses the entry points of `answer`.
#![tactic(auto)]

ghost use Rattle.snapshot.specs.Refusals.{fault_number};
ghost use Rattle.reports.specs.questions.Questions.{question_of};
ghost use Rattle.windows.specs.state.Words.{words_of};
ghost use Rattle.windows.specs.Windows.{Placed, Turned, told};

pub mod state;
pub mod turns;
pub mod values;

use crate::state::rows::Windows;
use crate::turns::Served;
use crate::values::{placed, turned};
use snapshot::kind::Size;
use snapshot::refusal::Refusal;

/// Places a question, seven words, for a window. Or answers why it is refused, with the state unchanged: 49 no such window,
/// 50 a question of the window waits already.
pub fn place(
    windows: &mut Windows,
    window: usize,
    question: &[u32; Size::QUESTION],
) -> Result<(), Refusal>
    ensures { Placed (words_of windows.old) window (question_of question.now) (words_of windows.new) (fault_number result) }
{
    *windows = placed(*windows, window, question)?;
    Ok(())
}

/// Serves the next window that waits, counting round from the one after that served last, on the words of a snapshot: its question
/// waits no more. The work area is left as `find_path` leaves it. Where no question waits, it serves none and changes nothing.
pub fn turn(windows: &mut Windows, words: &[u32], area: &mut [u32]) -> Option<Served>
    ensures { Turned (words_of windows.old) words.now area.old
        (words_of windows.new) area.new (told result) }
{
    let t = turned(*windows, words, area);
    *windows = t.windows;
    t.served
}
