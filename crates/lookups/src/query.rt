//! The queries of the list, five words each: a code and four numbers.
use std::fmt;

/// What is asked.
// `Unknown` is a variant, since a query of no kind is printed like the others, with its numbers.
#[derive(Clone, Copy, Debug, PartialEq, Eq)]
pub enum Kind {
    Visible,
    Name,
    Scope,
    Named,
    Occupied,
    Root,
    Containing,
    Extern,
    Home,
    Reads,
    Unknown,
}

// A `match` on the numbers of the list, as in `DefinitionKind::of` of `snapshot`.
impl From<u32> for Kind {
    fn from(code: u32) -> Kind {
        match code {
            1 => Kind::Visible,
            2 => Kind::Name,
            3 => Kind::Scope,
            4 => Kind::Named,
            5 => Kind::Occupied,
            6 => Kind::Root,
            7 => Kind::Containing,
            8 => Kind::Extern,
            9 => Kind::Home,
            10 => Kind::Reads,
            _ => Kind::Unknown,
        }
    }
}

impl fmt::Display for Kind {
    fn fmt<W: fmt::Write>(&self, f: &mut fmt::Formatter<W>) -> fmt::Result {
        f.write_str(match self {
            Kind::Visible => "visible",
            Kind::Name => "name",
            Kind::Scope => "scope",
            Kind::Named => "named",
            Kind::Occupied => "occupied",
            Kind::Root => "root",
            Kind::Containing => "containing",
            Kind::Extern => "extern",
            Kind::Home => "home",
            Kind::Reads => "reads",
            Kind::Unknown => "unknown",
        })
    }
}

/// A query; the numbers that its kind has no use for are 0 in the list.
// Four numbers in the list for every kind of query: no count beside them.
#[derive(Clone, Copy, Debug, PartialEq, Eq)]
pub struct Query {
    pub kind: Kind,
    pub numbers: [usize; 4],
}

// No derive makes a `From`: the first number is a code, and the others become indices.
impl From<[u32; 5]> for Query {
    fn from(words: [u32; 5]) -> Query {
        let [code, a, b, c, d] = words;
        Query {
            kind: Kind::from(code),
            numbers: [a as usize, b as usize, c as usize, d as usize],
        }
    }
}

impl fmt::Display for Query {
    fn fmt<W: fmt::Write>(&self, f: &mut fmt::Formatter<W>) -> fmt::Result {
        let kind = self.kind;
        let [a, b, c, d] = self.numbers;
        write!(f, "{kind} {a} {b} {c} {d}")
    }
}
