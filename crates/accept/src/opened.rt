//! A snapshot that was accepted, as the readers take it.
ghost use Rattle.accept.specs.Post.{Reads};

use snapshot::records::Records;

/// The words that were accepted, with the layout and the tables that the check left.
// A function that writes to the area takes `Records` and the area: while a snapshot is there, its area is only read.
// That a module or a name is there stays a clause of each reader: a value of a snapshot with its module would be made anew at each step of a walk
// through modules. Where the module stays the same, the readers of paths take a `hir_def::View`.
#[derive(Clone, Copy)]
pub struct Snapshot<'w, 'a> {
    pub records: Records<'w>,
    pub area: &'a [u32],
    ghost reads: { Reads records.words.now area.now records.layout },
}
