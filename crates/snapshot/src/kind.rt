//! The kinds of records and their arguments, in one table.
ghost use Rattle.std.specs.Prelude.{◌≡◌, ◌+◌, ◌^◌, ◌<◌, get_or};
ghost use Rattle.snapshot.specs.reading.Words.{words_of};
ghost use Rattle.snapshot.specs.Kinds.{kind_with};
ghost use Rattle.snapshot.specs.Sizes.{argument_table, arguments_at};

use crate::reading::{kind, payload};

/// A record's kind.
// The kinds of the format, twelve where an `Option` has two; that a number is no kind is the `None` of `of`.
#[derive(Clone, Copy, PartialEq, Eq)]
pub enum Kind {
    Name = 1,
    Crate,
    Dependency,
    Map,
    Module,
    Child,
    Prelude,
    Definition,
    Scope,
    Import,
    Extern,
    Member = 13,
}

// A `match` on the numbers of the format, as in `DefinitionKind::of`; a table would have a hole at 12, which is no record's kind.
impl Kind {
    /// The kind that the head of an argument has.
    pub const ARGUMENT: usize = 0;

    /// The kind with a number.
    pub fn of(number: usize) -> Option<Kind>
        ensures { result ≡ kind_with number }
    {
        match number {
            1 => Some(Kind::Name),
            2 => Some(Kind::Crate),
            3 => Some(Kind::Dependency),
            4 => Some(Kind::Map),
            5 => Some(Kind::Module),
            6 => Some(Kind::Child),
            7 => Some(Kind::Prelude),
            8 => Some(Kind::Definition),
            9 => Some(Kind::Scope),
            10 => Some(Kind::Import),
            11 => Some(Kind::Extern),
            13 => Some(Kind::Member),
            _ => None,
        }
    }
}

/// The words of a record of each kind, its head included; a name's depend on its text. Then those of a question, and of one for a reach.
#[derive(Clone, Copy)]
pub struct Size;

impl Size {
    pub const CRATE: usize = 2;

    pub const DEPENDENCY: usize = 3;

    pub const MAP: usize = 3;

    pub const MODULE: usize = 2;

    pub const CHILD: usize = 2;

    pub const PRELUDE: usize = 2;

    pub const DEFINITION: usize = 3;

    pub const SCOPE: usize = 8;

    pub const IMPORT: usize = 6;

    pub const EXTERN: usize = 3;

    pub const MEMBER: usize = 5;

    pub const QUESTION: usize = 7;

    pub const REACH: usize = 5;
}

// The arguments of a record of each kind; a name's depend on its text, and no record is of kind 12.
const ARGUMENTS: [usize; 14] = [
    0,
    0,
    Size::CRATE - 1,
    Size::DEPENDENCY - 1,
    Size::MAP - 1,
    Size::MODULE - 1,
    Size::CHILD - 1,
    Size::PRELUDE - 1,
    Size::DEFINITION - 1,
    Size::SCOPE - 1,
    Size::IMPORT - 1,
    Size::EXTERN - 1,
    0,
    Size::MEMBER - 1,
];

// `get` with a default would answer through an Option what this test says in a line.
fn fixed(kind: usize) -> usize
    ensures { result ≡ get_or argument_table kind 0 }
{
    if 14 <= kind {
        return 0;
    }
    ARGUMENTS[kind]
}

/// The words that hold a text of so many bytes.
pub fn text_words(bytes: usize) -> usize
    requires { bytes < 2 ^ 32 }
    ensures { result ≡ words_of bytes }
{
    (bytes + 2) / 3
}

/// The arguments that the record with its head at a place should have.
pub fn arguments(words: &[u32], at: usize) -> usize
    ensures { result ≡ arguments_at words.now at }
{
    let k = kind(words, at);
    if k == Kind::Name as usize {
        return text_words(payload(words, at));
    }
    fixed(k)
}
