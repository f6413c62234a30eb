//! The words of a snapshot with the layout of their records.
ghost use Rattle.std.specs.Prelude.{◌^◌, ◌<◌};
ghost use Rattle.snapshot.specs.Layouts.{word_count};

use crate::layout::Layout;

/// Words, and where the records stand in them.
#[derive(Clone, Copy)]
pub struct Records<'w> {
    pub words: &'w [u32],
    pub layout: Layout,
    ghost fits: { word_count layout < 2 ^ 32 },
}
