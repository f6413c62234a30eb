//! The state as words: the next window, then the rows, eight words each.
ghost use Rattle.std.specs.Prelude.{◌≡◌};
ghost use Rattle.windows.specs.rules.States.{row_of, with_row};
ghost use Rattle.windows.specs.state.Words.{row_words, words_of};

use crate::state::rows::{Row, Windows, empty_row};
use crate::state::window::{Window, WindowCount};

/// A number of words.
#[derive(Clone, Copy)]
pub struct StateWords;

impl StateWords {
    /// Words of a row.
    pub const ROW: usize = 8;
}

// No `From`: `row_of` takes a window beside the words, and `windows_of` and `words_of` have the names by which the clauses speak of a state.

/// The row that the words of a window are.
pub fn row_of(words: [u32; 65], window: Window) -> Row
    ensures { row_words result ≡ row_of words window.number }
{
    let at = 1 + StateWords::ROW * window.number;
    Row {
        waits: words[at],
        ns: words[at + 1],
        definition: words[at + 2],
        from: words[at + 3],
        prefix: words[at + 4],
        options: words[at + 5],
        fuel: words[at + 6],
        limit: words[at + 7],
    }
}

/// The state that the words are.
pub fn windows_of(words: [u32; 65]) -> Windows
    ensures { words_of result ≡ words }
{
    let none = empty_row();
    let mut rows = [none; 8];
    for i in 0..WindowCount::LIMIT {
        let window = Window { number: i };
        let row = row_of(words, window);
        rows[i] = row;
    }
    let next = words[0];
    Windows { next, rows }
}

/// The words with other words for a window.
// A loop: `copy_from_slice` has C bring a `memmove`.
pub fn with_words(mut words: [u32; 65], window: Window, row: [u32; 8]) -> [u32; 65]
    ensures { result ≡ with_row words window.number row }
{
    let at = 1 + StateWords::ROW * window.number;
    for i in 0..StateWords::ROW {
        words[at + i] = row[i];
    }
    words
}

/// The words of a row.
pub fn row_words(row: Row) -> [u32; 8]
    ensures { result ≡ row_words row }
{
    [
        row.waits,
        row.ns,
        row.definition,
        row.from,
        row.prefix,
        row.options,
        row.fuel,
        row.limit,
    ]
}

/// The words of a state.
pub fn words_of(windows: Windows) -> [u32; 65]
    ensures { result ≡ words_of windows }
{
    let mut words = [0u32; 65];
    words[0] = windows.next;
    for i in 0..WindowCount::LIMIT {
        let row = windows.rows[i];
        let window = Window { number: i };
        let more = with_words(words, window, row_words(row));
        words = more;
    }
    words
}
