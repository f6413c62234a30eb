//! Questions placed and served, in a state by value.
ghost use Rattle.std.specs.Prelude.{◌≡◌};
ghost use Rattle.snapshot.specs.Refusals.{fault_number};
ghost use Rattle.reports.specs.questions.Questions.{question_of};
ghost use Rattle.windows.specs.rules.States.{place_fault, with_row, waiting, asked_by, after_serving};
ghost use Rattle.windows.specs.state.Words.{OfNumber, words_of};

use crate::state::rows::{Row, Windows, empty_row, waits, with_row};
use crate::state::window::Window;
use find_path_spec::{Query, Question};
use snapshot::ids::{DefinitionId, ModuleId};
use snapshot::kind::Size;
use snapshot::refusal::Refusal;

/// The window of a number, or why its question is refused.
pub fn free_window(windows: Windows, number: usize) -> Result<Window, Refusal>
    ensures { (fault_number result ≡ place_fault (words_of windows) number) × OfNumber number result }
{
    let Some(window) = Window::of(number) else {
        return Err(Refusal::Window);
    };
    if waits(windows, window) {
        return Err(Refusal::Waits);
    }
    Ok(window)
}

/// The state in which a question of a window waits.
pub fn with_question(windows: Windows, window: Window, question: &[u32; Size::QUESTION]) -> Windows
    ensures { words_of result ≡ with_row (words_of windows) window.number (waiting (question_of question.now)) }
{
    let row = Row {
        waits: 1,
        ns: question[0],
        definition: question[1],
        from: question[2],
        prefix: question[3],
        options: question[4],
        fuel: question[5],
        limit: question[6],
    };
    with_row(windows, window, row)
}

/// The question of a window.
pub fn asked_by(windows: Windows, window: Window) -> Question
    ensures { result ≡ asked_by (words_of windows) window.number }
{
    let row = windows.rows[window.number];
    let query = Query {
        ns: row.ns as usize,
        definition: DefinitionId(row.definition as usize),
        from: ModuleId(row.from as usize),
        prefix: row.prefix as usize,
        options: row.options as usize,
        limit: row.limit as usize,
    };
    Question {
        query,
        fuel: row.fuel as usize,
    }
}

/// The state after a window was served: its question waits no more, and the next turn counts from the window after it.
pub fn after_serving(windows: Windows, window: Window) -> Windows
    ensures { words_of result ≡ after_serving (words_of windows) window.number }
{
    let row = empty_row();
    let mut served = with_row(windows, window, row);
    served.next = window.next().number as u32;
    served
}
