//! Paths to choose from: their lengths, one name more, and which of two is better.
ghost use Rattle.std.specs.Prelude.{◌≡◌, ◌+◌, ◌%◌, ◌≤◌, ◌<◌, ◌^◌};
ghost use Rattle.snapshot.specs.Limits.{word_limit};
ghost use Rattle.accept.specs.Opened.{snap_in};
ghost use Rattle.find_path_choice.specs.Choices.{name_len, is_prelude, path_kind_len, path_len, step_by, keyword as keyword_of};
ghost use Rattle.find_path_choice.specs.Choices.{choice_new, extended as extended_of, push as push_of, unstably as unstably_of, better as better_of};
ghost use Rattle.find_path_choice.specs.Choices.{try_select, length_left};
ghost use Rattle.find_path_choice.specs.Given.{chosen, given};
ghost use Rattle.find_path_choice.specs.StepRules.{rule_number};

use crate::Choice;
use accept::opened::Snapshot;
use snapshot::ids::Name;
use snapshot::reading::{field, payload};
use snapshot::table::name_head;

/// The bytes of a name's text.
pub fn name_len(db: &Snapshot, n: Name) -> usize
    requires { n.0 < db.now.records.layout.names }
    ensures { (result ≡ name_len (snap_in db.now) n.0) × (result ≤ 255) }
{
    payload(db.records.words, name_head(db.area, n))
}

/// Whether a name is `prelude`.
pub fn is_prelude(db: &Snapshot, n: Name) -> bool
    requires { n.0 < db.now.records.layout.names }
    ensures { result ≡ is_prelude (snap_in db.now) n.0 }
{
    let h = name_head(db.area, n);
    let first = field(db.records.words, h, 1) == 0x657270;
    let second = field(db.records.words, h, 2) == 0x64756C;
    let third = field(db.records.words, h, 3) == 0x65;
    (payload(db.records.words, h) == 7) & (first & (second & third))
}

// The text lengths of the path kinds, and the names that they count for.
const KIND_TEXT: [usize; 5] = [0, 4, 5, 5, 2];

const KIND_NAMES: [usize; 5] = [0, 0, 1, 1, 0];

/// The text length of a path kind.
// A table with 0 past its end, as `snapshot::kind::fixed`: shared, the two would be told their tables and lengths, which is what each says.
pub fn path_kind_len(kind: usize) -> usize
    ensures { (result ≡ path_kind_len kind) × (result ≤ 5) }
{
    if 5 <= kind {
        return 0;
    }
    KIND_TEXT[kind]
}

/// The length of a path: its names, and one more for `super` and for `crate`.
pub fn path_len(c: Choice) -> usize
    requires { c.count < 2 ^ 32 }
    ensures { (result ≡ path_len (chosen c)) × (result ≤ c.count + 1) }
{
    let kind = c.kind;
    if 5 <= kind {
        return c.count;
    }
    KIND_NAMES[kind] + c.count
}

/// The rules of a route.
// The eight rules of the format, where an `Option` has two cases.
#[derive(Clone, Copy)]
pub enum StepRule {
    Builtin,
    Scope,
    Prelude,
    Extern,
    Keyword,
    Variant,
    Local,
    Import,
}

// A `match` on the numbers of the format, as in `DefinitionKind::of` of `snapshot`.
impl StepRule {
    /// The rule of a step.
    pub fn of_step(step: usize) -> StepRule
        ensures { rule_number result ≡ step % 8 }
    {
        match step % 8 {
            0 => StepRule::Builtin,
            1 => StepRule::Scope,
            2 => StepRule::Prelude,
            3 => StepRule::Extern,
            4 => StepRule::Keyword,
            5 => StepRule::Variant,
            6 => StepRule::Local,
            _ => StepRule::Import,
        }
    }
}

/// A step of a route: its rule, and the place of the record used.
pub fn step_by(rule: StepRule, place: usize) -> usize
    requires { place < word_limit }
    ensures { result ≡ step_by (rule_number rule) place }
{
    place * 8 + rule as usize
}

/// A keyword without names.
pub fn keyword(kind: usize) -> Choice
    ensures { chosen result ≡ keyword_of kind }
{
    let names = [0usize; 16];
    let mut route = [0usize; 17];
    route[0] = StepRule::Keyword as usize;
    let text = path_kind_len(kind);
    Choice {
        kind: kind,
        names: names,
        count: 0,
        path_text_len: text,
        stable: true,
        has_prelude_segment: false,
        route: route,
        steps: 1,
    }
}

/// The choice, unstable.
pub fn unstably(c: Choice) -> Choice
    ensures { chosen result ≡ unstably_of (chosen c) }
{
    let mut d = c;
    d.stable = false;
    d
}

// Whether the newcomer, with the name to come, takes the place of the current choice.
// `prefer` is `prefer_prelude` of the Rust, a setting of the question.
fn better(db: &Snapshot, prefer: bool, current: Choice, other: Choice, n: Name) -> bool
    requires { (n.0 < db.now.records.layout.names) × (current.count < 2 ^ 32) × (other.count < 2 ^ 32) × (other.path_text_len < 2 ^ 32) }
    ensures { result ≡ better_of (snap_in db.now) prefer (chosen current) (chosen other) n.0 }
{
    let text = other.path_text_len + name_len(db, n);
    let a = other.has_prelude_segment;
    let b = current.has_prelude_segment;
    let by_prelude = if prefer { a.cmp(&b) } else { b.cmp(&a) };
    let by_length = path_len(current).cmp(&(path_len(other) + 1));
    let by_text = current.path_text_len.cmp(&text);
    other
        .stable
        .cmp(&current.stable)
        .then(by_prelude)
        .then(by_length)
        .then(by_text)
        .is_gt()
}

impl Choice {
    /// One name, stable, by a step.
    pub fn new(db: &Snapshot, kind: usize, n: Name, via: usize) -> Choice
        requires { n.0 < db.now.records.layout.names }
        ensures { chosen result ≡ choice_new (snap_in db.now) kind n.0 via }
    {
        let mut names = [0usize; 16];
        names[0] = n.0;
        let mut route = [0usize; 17];
        route[0] = via;
        let text = path_kind_len(kind) + name_len(db, n);
        let prelude = is_prelude(db, n);
        Choice {
            kind: kind,
            names: names,
            count: 1,
            path_text_len: text,
            stable: true,
            has_prelude_segment: prelude,
            route: route,
            steps: 1,
        }
    }

    // One name more, by a step, with a flag given for `prelude`.
    // `flag` is the value of a field, not a switch.
    fn extended(self, db: &Snapshot, n: Name, via: usize, flag: bool) -> Choice
        requires { (n.0 < db.now.records.layout.names) × (self.count < 16) × (self.path_text_len < 2 ^ 32) × (self.steps < 17) }
        ensures { chosen result ≡ extended_of (snap_in db.now) (chosen self) n.0 via flag }
    {
        let count = self.count;
        let mut names = self.names;
        names[count] = n.0;
        let steps = self.steps;
        let mut route = self.route;
        route[steps] = via;
        let text = self.path_text_len + name_len(db, n);
        Choice {
            kind: self.kind,
            names: names,
            count: count + 1,
            path_text_len: text,
            stable: self.stable,
            has_prelude_segment: flag,
            route: route,
            steps: steps + 1,
        }
    }

    /// One name more, by a step.
    pub fn push(self, db: &Snapshot, n: Name, via: usize) -> Choice
        requires { (n.0 < db.now.records.layout.names) × (self.count < 16) × (self.path_text_len < 2 ^ 32) × (self.steps < 17) }
        ensures { chosen result ≡ push_of (snap_in db.now) (chosen self) n.0 via }
    {
        let flag = is_prelude(db, n);
        self.extended(db, n, via, self.has_prelude_segment | flag)
    }

    /// The better of the choice so far and a newcomer with one name more; the first choice counts that name for `prelude`.
    // `prefer` as in `better`.
    pub fn try_select(
        best: Option<Choice>,
        db: &Snapshot,
        prefer: bool,
        other: Choice,
        n: Name,
        via: usize,
    ) -> Choice
        requires { (n.0 < db.now.records.layout.names) × ((given best).count < 2 ^ 32) × (other.count < 16) × (other.path_text_len < 2 ^ 32)
            × (other.steps < 17) }
        ensures { chosen result ≡ try_select (snap_in db.now) prefer (given best) (chosen other) n.0 via }
    {
        let Some(current) = best else {
            return other.push(db, n, via);
        };
        if better(db, prefer, current, other, n) {
            return other.extended(db, n, via, other.has_prelude_segment);
        }
        current
    }
}

/// The length left for a step: one less than the caller's, or than that of the choice so far if it is smaller.
pub fn length_left(left: usize, best: Option<Choice>) -> usize
    requires { (given best).count < 2 ^ 32 }
    ensures { result ≡ length_left left (given best) }
{
    let Some(c) = best else {
        return left.saturating_sub(1);
    };
    let n = path_len(c);
    if n < left {
        return n.saturating_sub(1);
    }
    left.saturating_sub(1)
}
