//! Where the records of an accepted snapshot stand.
ghost use Rattle.std.specs.Prelude.{◌≡◌, ◌+◌, ◌*◌, ◌^◌, ◌<◌};
ghost use Rattle.snapshot.specs.Layouts.{dependency_base, map_base, child_base, prelude_base, definition_base, scope_base, import_base, extern_base};
ghost use Rattle.snapshot.specs.Layouts.{member_base, word_count, no_records};

use crate::kind::Size;

/// How many records of each kind there are, and how many words the names take; the kinds stand in order, so the rest follows.
#[derive(Clone, Copy)]
pub struct Layout {
    /// Words of the name records.
    pub text: usize,
    pub names: usize,
    pub crates: usize,
    pub dependencies: usize,
    pub maps: usize,
    pub modules: usize,
    pub children: usize,
    pub preludes: usize,
    pub definitions: usize,
    pub scopes: usize,
    pub imports: usize,
    pub externs: usize,
    pub members: usize,
    /// The head of the last map.
    pub latest: u32,
}

impl Layout {
    /// No record.
    pub fn new() -> Self
        ensures { result ≡ no_records }
    {
        Layout {
            text: 0,
            names: 0,
            crates: 0,
            dependencies: 0,
            maps: 0,
            modules: 0,
            children: 0,
            preludes: 0,
            definitions: 0,
            scopes: 0,
            imports: 0,
            externs: 0,
            members: 0,
            latest: 0,
        }
    }

    // That the words are few is a clause of each base: the check asks for one while the layout grows. Above the check `Records` holds it.
    pub fn dependency_base(self) -> usize
        requires { word_count self < 2 ^ 32 }
        ensures { result ≡ dependency_base self }
    {
        self.text + Size::CRATE * self.crates
    }

    pub fn map_base(self) -> usize
        requires { word_count self < 2 ^ 32 }
        ensures { result ≡ map_base self }
    {
        self.dependency_base() + Size::DEPENDENCY * self.dependencies
    }

    pub fn child_base(self) -> usize
        requires { word_count self < 2 ^ 32 }
        ensures { result ≡ child_base self }
    {
        self.map_base() + Size::MAP * self.maps + Size::MODULE * self.modules
    }

    pub fn prelude_base(self) -> usize
        requires { word_count self < 2 ^ 32 }
        ensures { result ≡ prelude_base self }
    {
        self.child_base() + Size::CHILD * self.children
    }

    pub fn definition_base(self) -> usize
        requires { word_count self < 2 ^ 32 }
        ensures { result ≡ definition_base self }
    {
        self.prelude_base() + Size::PRELUDE * self.preludes
    }

    pub fn scope_base(self) -> usize
        requires { word_count self < 2 ^ 32 }
        ensures { result ≡ scope_base self }
    {
        self.definition_base() + Size::DEFINITION * self.definitions
    }

    pub fn import_base(self) -> usize
        requires { word_count self < 2 ^ 32 }
        ensures { result ≡ import_base self }
    {
        self.scope_base() + Size::SCOPE * self.scopes
    }

    pub fn extern_base(self) -> usize
        requires { word_count self < 2 ^ 32 }
        ensures { result ≡ extern_base self }
    {
        self.import_base() + Size::IMPORT * self.imports
    }

    pub fn member_base(self) -> usize
        requires { word_count self < 2 ^ 32 }
        ensures { result ≡ member_base self }
    {
        self.extern_base() + Size::EXTERN * self.externs
    }
}
