//! Paths read out of the rows, one more name, and the shorter of two.
//! The area is longer than the n rows of the run, and the clauses bound each link by n: so both are passed.
ghost use Rattle.std.specs.Prelude.{◌≡◌, ℕ, ◌+◌, ◌^◌, ◌≤◌, ◌<◌};
ghost use Rattle.std.specs.Prelude.{Option, IfSome, option_map};
ghost use Rattle.snapshot.specs.Limits.{module_limit};
ghost use Rattle.snapshot.specs.Records.{Snapshot};
ghost use Rattle.nameable.specs.Paths.{Path, into, names_in};
ghost use Rattle.nameable.specs.Breadth.{names_limit, shorter as shorter_of};
ghost use Rattle.any_path.specs.Rows.{keyword_from, path_from, path_at, link_at};
ghost use Rattle.told_paths.specs.arrivals.Steps.{LeadsTo};
ghost use Rattle.told_paths.specs.Tells.{step_link, keyword_kind, keyword_supers, told_long, tell as tell_of};
ghost use Rattle.told_paths.specs.declared.ToldPath.{ToldPath};

use crate::ToldPath;
use crate::arrivals::LastStep;
use any_path::rows::Row;
use snapshot::ids::PathKind;
use snapshot::reading::word;

/// Names of a path.
#[derive(Clone, Copy)]
pub struct NameCount;

impl NameCount {
    /// Names of a path that is told, at most.
    pub const LIMIT: usize = 16;
}

// A path with too many names.
fn long(count: usize) -> ToldPath
    ensures { result ≡ told_long count }
{
    let names = [0usize; 16];
    ToldPath {
        kind: PathKind::Plain,
        supers: 0,
        names: names,
        count: count,
    }
}

// The kind of a keyword: 0 `crate`, else so many `super` and one more.
fn keyword_kind(n: usize) -> PathKind
    ensures { result ≡ keyword_kind (keyword_from n) }
{
    if n == 0 {
        return PathKind::Crate;
    }
    if n == 1 {
        return PathKind::SelfModule;
    }
    PathKind::Super
}

fn keyword_supers(n: usize) -> usize
    ensures { result ≡ keyword_supers (keyword_from n) }
{
    n.saturating_sub(1)
}

// How many names a path has whose last step has that link, after n rows.
// `while`: it follows links, so the next one is read; so in `read`.
fn names_in(area: &[u32], n: usize, link: usize) -> usize
    requires { (n ≤ module_limit) × (link < n + 3) × ((i : ℕ) → i < n → link_at area.now i < i + 3) }
    ensures by_index { (x : ℕ) → result ≡ names_in (path_from (path_at area.now) link x) }
    ensures upper_bound { result ≤ link }
{
    let mut k = link;
    let mut count = 0;
    while 2 < k {
        k = word(area, Row::BASE + Row::SIZE * (k - 3) + 1);
        count += 1;
    }
    if k == 0 {
        return count;
    }
    count + 1
}

// The path with that last step, which has so many names.
// `while`, as in `names_in`.
fn read(area: &[u32], n: usize, link: usize, name: usize, count: usize) -> ToldPath
    requires { (n ≤ module_limit) × (link < n + 3) × ((i : ℕ) → i < n → link_at area.now i < i + 3) × (count ≤ names_limit)
        × (count ≡ names_in (path_from (path_at area.now) link name)) }
    ensures value { result ≡ tell_of (path_from (path_at area.now) link name) }
    ensures count_le_names_limit { result.count ≤ names_limit }
{
    let mut names = [0usize; 16];
    let mut k = link;
    let mut x = name;
    let mut j = count;
    while 2 < k {
        j -= 1;
        names[j] = x;
        let at = Row::BASE + Row::SIZE * (k - 3);
        k = word(area, at + 1);
        x = word(area, at + 2);
    }
    if k == 0 {
        return ToldPath {
            kind: keyword_kind(x),
            supers: keyword_supers(x),
            names: names,
            count: count,
        };
    }
    names[0] = x;
    if k == 1 {
        return ToldPath {
            kind: PathKind::Absolute,
            supers: 0,
            names: names,
            count: count,
        };
    }
    ToldPath {
        kind: PathKind::Plain,
        supers: 0,
        names: names,
        count: count,
    }
}

/// The path to which a step after n rows leads.
pub fn tell(area: &[u32], n: usize, step: Option<LastStep>) -> Option<ToldPath>
    requires { (n ≤ module_limit) × (step_link step < n + 3) × ((i : ℕ) → i < n → link_at area.now i < i + 3) }
    ensures value { (s : Snapshot) (from ns : ℕ) (o : Option Path) → LeadsTo s from ns area.now n o step → result ≡ option_map tell_of o }
    ensures count_bound { IfSome result (λ (t : ToldPath). t.count < 2 ^ 32) }
{
    let last = step?;
    let count = names_in(area, n, last.link);
    if NameCount::LIMIT < count {
        return Some(long(count));
    }
    Some(read(area, n, last.link, last.name, count))
}

/// One name more.
pub fn more(t: ToldPath, name: usize) -> ToldPath
    requires { t.count < 2 ^ 32 }
    ensures { (p : Path) → t ≡ tell_of p → result ≡ tell_of (into p name) }
{
    if NameCount::LIMIT <= t.count {
        return long(t.count + 1);
    }
    let at = t.count;
    let mut names = t.names;
    names[at] = name;
    ToldPath {
        kind: t.kind,
        supers: t.supers,
        names: names,
        count: at + 1,
    }
}

/// The second where it is shorter.
pub fn shorter(a: Option<ToldPath>, b: Option<ToldPath>) -> Option<ToldPath>
    ensures { (p q : Option Path) → a ≡ option_map tell_of p → b ≡ option_map tell_of q → result ≡ option_map tell_of (shorter_of p q) }
{
    let Some(first) = a else {
        return b;
    };
    let Some(second) = b else {
        return a;
    };
    if second.count < first.count {
        return b;
    }
    a
}
