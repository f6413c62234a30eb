//! A word of the second with its number moved.
ghost use Rattle.std.specs.Prelude.{◌≡◌, ◌+◌, ◌^◌, ◌<◌, get_or, length, map};
ghost use Rattle.snapshot.specs.Lists.{rows};
ghost use Rattle.snapshot.specs.Kinds.{kind_number};
ghost use Rattle.join.specs.records.Roles.{role_number};
ghost use Rattle.join_rules.specs.Joined.{or_none, first_to, second_to, visible_to};
ghost use Rattle.join.specs.numbers.Numbered.{name_table, definition_table};
ghost use Rattle.join.specs.records.Moves.{numbers_in, role_of, definition_of, field_to, moved_word};

use crate::numbers::tables::Moved;
use snapshot::ids::DefinitionKind;
use snapshot::kind::Kind;
use snapshot::layout::Layout;
use snapshot::reading::{field, kind, payload};

// What a word of a record numbers. `First` and `Second` say it of a definition's, by its kind; `Seen` of a visibility's; `Parent` is a
// module's number +1, 0 for none.
// `Nothing` is a variant: with an `Option<Role>` each word of `roles` would be wrapped, to be taken out again in `field_to`.
#[derive(Clone, Copy)]
enum Role {
    Nothing,
    Crate,
    Map,
    Module,
    Parent,
    Name,
    Definition,
    First,
    Second,
    Seen,
}

// What the words of a record number, the payload first.
fn roles(kind: Kind) -> [Role; 8]
    ensures { (length result ≡ 8) × (map role_number result ≡ rows (role_of (kind_number kind)) 0 8) }
{
    let no = Role::Nothing;
    match kind {
        Kind::Name | Kind::Crate => [no, no, no, no, no, no, no, no],
        Kind::Dependency => [Role::Crate, Role::Crate, no, no, no, no, no, no],
        Kind::Map => [Role::Crate, Role::Parent, no, no, no, no, no, no],
        Kind::Module => [Role::Map, Role::Parent, no, no, no, no, no, no],
        Kind::Child => [Role::Module, Role::Module, no, no, no, no, no, no],
        Kind::Prelude => [Role::Map, Role::Module, no, no, no, no, no, no],
        Kind::Definition => [no, Role::First, Role::Second, no, no, no, no, no],
        Kind::Scope => [
            Role::Module,
            no,
            Role::Name,
            Role::Definition,
            no,
            Role::Seen,
            no,
            no,
        ],
        Kind::Import => [
            Role::Crate,
            no,
            Role::Definition,
            Role::Name,
            Role::Module,
            no,
            no,
            no,
        ],
        Kind::Extern => [Role::Crate, Role::Name, Role::Module, no, no, no, no, no],
        Kind::Member => [
            Role::Definition,
            Role::Name,
            Role::Definition,
            no,
            no,
            no,
            no,
            no,
        ],
    }
}

// What word i of a record of a kind numbers.
fn role_of(kind: usize, i: usize) -> Role
    ensures { role_number result ≡ role_of kind i }
{
    let Some(its) = Kind::of(kind) else {
        return Role::Nothing;
    };
    if 8 <= i {
        return Role::Nothing;
    }
    let all = roles(its);
    all[i]
}

/// The second's words, the tables of its new numbers, and the layout of the first, by whose counts its other numbers move.
// No `Records`: the layout is not that of the words.
#[derive(Clone, Copy)]
pub struct Moving<'w, 'a> {
    pub words: &'w [u32],
    pub area: &'a [u32],
    pub first: Layout,
}

impl Moving<'_, '_> {
    /// The new number of a name of the second.
    // `n` is the name and no length.
    pub fn name_to(&self, n: usize) -> usize
        ensures { result ≡ get_or self.now.area.now (name_table + n) 0 }
    {
        field(self.area, Moved::NAMES, n)
    }

    /// The new number of a definition of the second.
    // `n` is the definition and no length.
    pub fn definition_to(&self, n: usize) -> usize
        ensures { result ≡ get_or self.now.area.now (definition_table + n) 0 }
    {
        field(self.area, Moved::DEFINITIONS, n)
    }

    // The first number of a definition with its kind: a variant's parent, a builtin's name, or a module.
    fn first_to(&self, k: usize, n: usize) -> usize
        requires { first_to (numbers_in self.now) (definition_of k n) < 2 ^ 32 }
        ensures { result ≡ first_to (numbers_in self.now) (definition_of k n) }
    {
        match DefinitionKind::of(k) {
            Some(DefinitionKind::Variant) => self.definition_to(n),
            Some(DefinitionKind::Builtin) => self.name_to(n),
            _ => self.first.modules + n,
        }
    }

    // The second: a variant's name, or 0.
    fn second_to(&self, k: usize, n: usize) -> usize
        ensures { result ≡ second_to (numbers_in self.now) (definition_of k n) }
    {
        if DefinitionKind::of(k) == Some(DefinitionKind::Variant) {
            return self.name_to(n);
        }
        n
    }

    // The number of a visibility: none, a crate's, or a module's.
    // By the number of its kind, as the definition `visible_to`: a `Visibility` would be made of both, and its number taken out again in each arm.
    fn seen_to(&self, v: usize, n: usize) -> usize
        requires { visible_to (numbers_in self.now) v n < 2 ^ 32 }
        ensures { result ≡ visible_to (numbers_in self.now) v n }
    {
        if v == 0 {
            return n;
        }
        if v == 1 {
            return self.first.crates + n;
        }
        self.first.modules + n
    }

    // A module's number +1, 0 for none. Both are words of the format, so neither is an `Option`.
    fn parent_to(&self, n: usize) -> usize
        requires { or_none (numbers_in self.now).modules n < 2 ^ 32 }
        ensures { result ≡ or_none (numbers_in self.now).modules n }
    {
        if n == 0 {
            return 0;
        }
        self.first.modules + n
    }

    // A word moved by what it numbers, in a record with that payload and that fourth argument.
    fn field_to(&self, p: usize, v: usize, role: Role, n: usize) -> usize
        requires { field_to (numbers_in self.now) p v (role_number role) n < 2 ^ 32 }
        ensures { result ≡ field_to (numbers_in self.now) p v (role_number role) n }
    {
        match role {
            Role::Nothing => n,
            Role::Crate => self.first.crates + n,
            Role::Map => self.first.maps + n,
            Role::Module => self.first.modules + n,
            Role::Parent => self.parent_to(n),
            Role::Name => self.name_to(n),
            Role::Definition => self.definition_to(n),
            Role::First => self.first_to(p, n),
            Role::Second => self.second_to(p, n),
            Role::Seen => self.seen_to(v, n),
        }
    }

    /// Word i of the record with its head at a place, moved.
    pub fn moved_word(&self, at: usize, i: usize) -> usize
        requires { moved_word (numbers_in self.now) self.now.words.now at i < 2 ^ 32 }
        ensures { result ≡ moved_word (numbers_in self.now) self.now.words.now at i }
    {
        let k = kind(self.words, at);
        let p = payload(self.words, at);
        let v = field(self.words, at, 4);
        let role = role_of(k, i);
        if i == 0 {
            return k * 268435456 + self.field_to(p, v, role, p);
        }
        self.field_to(p, v, role, field(self.words, at, i))
    }
}
