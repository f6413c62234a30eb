//! A window by its number, and how many they are.
ghost use Rattle.std.specs.Prelude.{◌≡◌, ◌+◌, ◌%◌, ◌<◌, ◌≤◌, None, Some};

/// A number of windows.
#[derive(Clone, Copy)]
pub struct WindowCount;

impl WindowCount {
    /// Windows that share the search.
    pub const LIMIT: usize = 8;
}

/// One of the eight windows.
#[derive(Clone, Copy)]
pub struct Window {
    pub number: usize,
    ghost below: { number < 8 },
}

impl Window {
    /// The window of a number, where there is one.
    pub fn of(number: usize) -> Option<Window>
        ensures { elim result [ None ↦ 8 ≤ number | Some w ↦ w.number ≡ number ] }
    {
        if WindowCount::LIMIT <= number {
            return None;
        }
        Some(Window { number })
    }

    /// The window after it, counting round.
    pub fn next(self) -> Window
        ensures { result.number ≡ (self.number + 1) % 8 }
    {
        Window {
            number: (self.number + 1) % WindowCount::LIMIT,
        }
    }
}
