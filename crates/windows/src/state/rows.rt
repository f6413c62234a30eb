//! The state: the window from which the next turn counts, and a row for each of eight windows.
ghost use Rattle.std.specs.Prelude.{◌≡◌};
ghost use Rattle.windows.specs.rules.States.{waits as waits_of, served, with_row};
ghost use Rattle.windows.specs.state.Words.{empty_row, row_words, number_of, words_of};

use crate::state::window::{Window, WindowCount};

/// A window: whether its question waits, any word but 0, and the question's words.
#[derive(Clone, Copy)]
pub struct Row {
    pub waits: u32,
    pub ns: u32,
    pub definition: u32,
    pub from: u32,
    pub prefix: u32,
    pub options: u32,
    pub fuel: u32,
    pub limit: u32,
}

/// Eight windows, and the one from which the next turn counts, modulo 8.
// Eight rows in 65 words that C keeps: always eight, so an array.
#[derive(Clone, Copy)]
pub struct Windows {
    pub next: u32,
    pub rows: [Row; 8],
}

/// A window with no question.
pub fn empty_row() -> Row
    ensures { result ≡ empty_row }
{
    Row {
        waits: 0,
        ns: 0,
        definition: 0,
        from: 0,
        prefix: 0,
        options: 0,
        fuel: 0,
        limit: 0,
    }
}

/// Whether the question of a window waits.
pub fn waits(windows: Windows, window: Window) -> bool
    ensures { result ≡ waits_of (words_of windows) window.number }
{
    let row = windows.rows[window.number];
    row.waits != 0
}

/// The first window that waits, counting round from the one that the state names.
pub fn next_waiting(windows: Windows) -> Option<Window>
    ensures { number_of result ≡ served (words_of windows) }
{
    let number = (windows.next % 8) as usize;
    let mut window = Window { number };
    for _turn in 0..WindowCount::LIMIT {
        if waits(windows, window) {
            return Some(window);
        }
        window = window.next();
    }
    None
}

/// The state with another row for a window.
pub fn with_row(mut windows: Windows, window: Window, row: Row) -> Windows
    ensures { words_of result ≡ with_row (words_of windows) window.number (row_words row) }
{
    windows.rows[window.number] = row;
    windows
}
