//! Numbers that never stand in for one another, with their limits.
//! Records hold numbers, so each of these types is one. The enums list the numbers of a format: of three and more, where an `Option` has two.
ghost use Rattle.std.specs.Prelude.{◌≡◌};
ghost use Rattle.snapshot.specs.Ids.{plus_one};
ghost use Rattle.snapshot.specs.Origins.{origin_number};
ghost use Rattle.snapshot.specs.DefinitionKinds.{definition_kind_of};
ghost use Rattle.snapshot.specs.MemberKinds.{member_kind_of};
ghost use Rattle.snapshot.specs.PathKinds.{path_kind_of};
ghost use Rattle.snapshot.specs.Visibilities.{visibility_of};

/// A module of the snapshot.
// That it is below a count or below the limit is a clause where that matters: records are read before they are checked, with any number in them.
// `==` borrows both sides, which a loop would carry: the test of `module_tree::meets` compares the numbers.
#[derive(Clone, Copy, PartialEq, Eq)]
pub struct ModuleId(pub usize);

impl ModuleId {
    /// Modules of a snapshot, at most.
    pub const LIMIT: usize = 512;
}

/// The module of a number +1, none for 0.
// Here such a word of the format or of the work area becomes an `Option`.
pub fn opt_module(n: usize) -> Option<ModuleId>
    ensures { plus_one result ≡ n }
{
    if n == 0 {
        return None;
    }
    Some(ModuleId(n - 1))
}

/// A crate of the snapshot.
#[derive(Clone, Copy, PartialEq, Eq)]
pub struct Crate(pub usize);

impl Crate {
    /// Crates of a snapshot, at most.
    pub const LIMIT: usize = 64;
}

/// Where a crate comes from.
#[derive(Clone, Copy, PartialEq, Eq)]
pub enum CrateOrigin {
    Ordinary,
    Core,
    Alloc,
    Std,
    OtherLanguage,
}

impl CrateOrigin {
    /// The number of an origin, at most.
    pub const LIMIT: usize = CrateOrigin::OtherLanguage as usize;

    /// The number that records give.
    pub fn number(self) -> usize
        ensures { result ≡ origin_number self }
    {
        self as usize
    }
}

/// A definition of the snapshot.
#[derive(Clone, Copy, PartialEq, Eq)]
pub struct DefinitionId(pub usize);

impl DefinitionId {
    /// Definitions of a snapshot, at most.
    pub const LIMIT: usize = 2048;
}

/// A name of the snapshot.
#[derive(Clone, Copy, PartialEq, Eq)]
pub struct Name(pub usize);

impl Name {
    /// Names of a snapshot, at most.
    pub const LIMIT: usize = 2048;
    /// Bytes of a name's text, at most.
    pub const BYTES: usize = 255;
}

/// Namespaces. The items of a question that is refused have any number for one, so it is no enum.
#[derive(Clone, Copy, PartialEq, Eq)]
pub struct Namespace(pub usize);

impl Namespace {
    pub const TYPES: usize = 0;

    pub const VALUES: usize = 1;

    pub const MACROS: usize = 2;
    /// The number of a namespace, at most.
    pub const LIMIT: usize = 2;
}

/// Kinds of definitions.
#[derive(Clone, Copy, PartialEq, Eq)]
pub enum DefinitionKind {
    Module = 1,
    Variant,
    Builtin,
    Other,
    Macro,
}

// A `match` on the numbers of the format: here a word becomes a variant. A table of variants would need a test of its length, a transmute
// an unsafe step.
// `of` and no `TryFrom`, here and for the other kinds: an error would say no more than `None`.
impl DefinitionKind {
    /// The kind with a number.
    pub fn of(number: usize) -> Option<DefinitionKind>
        ensures { result ≡ definition_kind_of number }
    {
        match number {
            1 => Some(DefinitionKind::Module),
            2 => Some(DefinitionKind::Variant),
            3 => Some(DefinitionKind::Builtin),
            4 => Some(DefinitionKind::Other),
            5 => Some(DefinitionKind::Macro),
            _ => None,
        }
    }
}

/// Kinds of members.
#[derive(Clone, Copy, PartialEq, Eq)]
pub enum MemberKind {
    Variant,
    Function,
    Constant,
    TypeAlias,
}

// A `match` on the numbers of the format, as in `DefinitionKind::of`.
impl MemberKind {
    /// The kind with a number.
    pub fn of(number: usize) -> Option<MemberKind>
        ensures { result ≡ member_kind_of number }
    {
        match number {
            0 => Some(MemberKind::Variant),
            1 => Some(MemberKind::Function),
            2 => Some(MemberKind::Constant),
            3 => Some(MemberKind::TypeAlias),
            _ => None,
        }
    }
}

/// From where an entry is visible: from everywhere, in a crate, or in a module, which is written or implied.
#[derive(Clone, Copy)]
pub enum Visibility {
    Public,
    InCrate(Crate),
    InModule(ModuleId),
    Implied(ModuleId),
}

// A `match` on the numbers of the format, as in `DefinitionKind::of`; the variants hold the other number, so no table could list them.
impl Visibility {
    /// The visibility with that kind and number.
    pub fn of(kind: usize, number: usize) -> Visibility
        ensures { result ≡ visibility_of kind number }
    {
        match kind {
            0 => Visibility::Public,
            1 => Visibility::InCrate(Crate(number)),
            3 => Visibility::Implied(ModuleId(number)),
            _ => Visibility::InModule(ModuleId(number)),
        }
    }
}

/// What a path begins with.
#[derive(Clone, Copy, PartialEq, Eq)]
pub enum PathKind {
    Plain,
    SelfModule,
    Super,
    Crate,
    Absolute,
}

// A `match` on the numbers of the format, as in `DefinitionKind::of`, over other variants. The project allows no macro for the two, and under a trait
// each type would still have its own `match`.
impl PathKind {
    /// The path kind with a number.
    pub fn of(number: usize) -> Option<PathKind>
        ensures { result ≡ path_kind_of number }
    {
        match number {
            0 => Some(PathKind::Plain),
            1 => Some(PathKind::SelfModule),
            2 => Some(PathKind::Super),
            3 => Some(PathKind::Crate),
            4 => Some(PathKind::Absolute),
            _ => None,
        }
    }
}

/// The length that a path may still have.
#[derive(Clone, Copy)]
pub struct PathLen;

impl PathLen {
    /// The length left where a search begins, at most.
    pub const LIMIT: usize = 15;
}

/// The prefix that a question asks for.
#[derive(Clone, Copy, PartialEq, Eq)]
pub enum Prefix {
    BySelf,
    Plain,
    ByCrate,
}

impl Prefix {
    /// The number of a prefix, at most.
    pub const LIMIT: usize = Prefix::ByCrate as usize;
}

/// The options of a question, added up.
#[derive(Clone, Copy)]
pub struct Options;

impl Options {
    /// All options together.
    pub const LIMIT: usize = 127;

    pub const PREFER_NO_STD: usize = 1;

    pub const PREFER_PRELUDE: usize = 2;

    pub const PREFER_ABSOLUTE: usize = 4;

    pub const ALLOW_UNSTABLE: usize = 8;
    /// Only what a module declares is a name there.
    pub const IGNORE_LOCAL_IMPORTS: usize = 16;
    /// Deprecated names come last.
    pub const FRESH: usize = 32;
    /// A found path is read from the viewing module.
    pub const READ_BACK: usize = 64;
}

/// Charges that a question may make.
#[derive(Clone, Copy)]
pub struct Fuel;

impl Fuel {
    /// Fuel of a question, at most.
    pub const LIMIT: usize = 10000;
}

/// A number of words.
#[derive(Clone, Copy)]
pub struct WordCount;

impl WordCount {
    /// Words of a snapshot, at most.
    pub const SNAPSHOT: usize = 16384;
    /// Words of a work area, at least.
    pub const AREA: usize = 16384;
}

/// The work area of a check or of a search: what is lent may have more words, and the first of them serve.
pub type Area = [u32; WordCount::AREA];
