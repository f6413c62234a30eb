//! What a turn gives.

use crate::state::rows::Windows;
use crate::state::window::Window;
use find_path_spec::Report;

/// The window that a turn served, and the report of its question.
#[derive(Clone, Copy)]
pub struct Served {
    pub window: Window,
    pub report: Report,
}

/// The state after a turn, and what it served, if any question waited.
#[derive(Clone, Copy)]
pub struct Turning {
    pub windows: Windows,
    pub served: Option<Served>,
}
