//! Why a call, a snapshot, a question or an edit is refused.
ghost use Rattle.std.specs.Prelude.{◌≡◌, ◌≤◌};
ghost use Rattle.snapshot.specs.Refusals.{refusal_number, join_refusal};

/// Why something is refused.
// The error of each `Result`, so none itself.
#[derive(Clone, Copy, PartialEq, Eq)]
pub enum Refusal {
    /// A work area with too few words.
    Area = 20,
    /// Too much fuel.
    Fuel = 21,
    /// A namespace, a prefix or options out of range.
    Field = 22,
    /// No such definition, module or crate.
    Unknown = 23,
    /// The macros namespace, with a definition that is no macro.
    Macro = 24,
    /// Too many words.
    Words = 30,
    /// A kind that is unknown or lower than the one before; an argument that is missing or has a kind.
    Form = 31,
    /// A field of a record out of range.
    Range = 32,
    /// The number of a thing that is not defined yet.
    Undefined = 33,
    /// What may stand once stands again.
    Repeated = 34,
    /// A record that does not fit those before it; a map or a crate left incomplete.
    Place = 35,
    /// Too many records of a kind.
    Count = 36,
    /// Too many bytes.
    Bytes = 40,
    /// Bytes that are not whole words.
    Rest = 41,
    /// A word outside a whole question.
    Question = 42,
    /// An unknown edition.
    Edition = 43,
    /// Too many questions, a part of one, or too few words for their reports.
    Batch = 44,
    /// A target with too few words for an import list.
    Target = 45,
    /// A limit out of range.
    Limit = 46,
    /// An added entry that is there already, or a removed one that isn't.
    Entry = 47,
    /// No room for an added entry.
    Room = 48,
    /// No such window.
    Window = 49,
    /// A window whose question waits already.
    Waits = 50,
    /// Two snapshots that joined pass a limit or the target.
    Join = 51,
}

impl Refusal {
    /// The number that reports and lines give.
    pub fn number(self) -> usize
        ensures same { result ≡ refusal_number self }
        ensures small { result ≤ join_refusal }
    {
        self as usize
    }
}
