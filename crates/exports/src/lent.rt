//! A state of the windows by value, lent for one operation.
ghost use Rattle.windows.specs.state.Words.{words_of};
ghost use Rattle.windows.specs.Windows.{Turned, told};

use windows::state::rows::Windows;
use windows::turn;
use windows::turns::Turning;

/// The state after a turn, and what it served.
pub fn turn_in(windows: Windows, words: &[u32], area: &mut [u32]) -> Turning
    ensures { Turned (words_of windows) words.now area.old (words_of result.windows) area.new (told result.served) }
{
    let mut lent = windows;
    let served = turn(&mut lent, words, area);
    Turning {
        windows: lent,
        served,
    }
}
