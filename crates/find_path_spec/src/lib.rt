//! The search rules, the report and the line as definitions, what the search takes and answers, and the theorems of the search.
//! Uses the definitions of the lookups, of a path's reading and of choices; it has no function.
#![tactic(auto)]

use find_path_choice::Choice;
use snapshot::ids::{Crate, DefinitionId, ModuleId};

// What is set once for a question, after the Rust's `FindPathCtx` and its config; `fresh` is old names last; `max_len` is the length left at
// the start.
// The flags are the settings of the Rust's context: each is a value that rules test, and none says whether another field holds.
// `prefix` is the question's number as it came: the faults have refused the others, and an enum would need a default that is never met.
// That its viewer is there is a clause and no fact of a type with the snapshot, as `hir_def::View` has it: the definitions make contexts of any
// numbers, and the search writes to the area between its rules, so such a value would be made anew at each. `own` is the module asked for, +1, or
// 0 where the item is no module. It is never C's: `sought_of` compares it with the number of the module that a charge looks for, and that number
// becomes a word of the report. As an `Option` it would be made a number at each charge.
#[derive(Clone, Copy)]
pub struct FindPathCtx {
    pub prefix: usize,
    pub prefer_no_std: bool,
    pub prefer_prelude: bool,
    pub prefer_absolute: bool,
    pub allow_unstable: bool,
    pub ignore_local_imports: bool,
    pub fresh: bool,
    pub is_std_item: bool,
    pub from: ModuleId,
    pub from_crate: Crate,
    pub crate_root: ModuleId,
    pub own: usize,
    pub max_len: usize,
}

// The fuel left, the charges so far, and whether a charge found no fuel. Of the first that found none: the length left, and the module
// that it looked for, +1, or 0 for the question's own item or its enum.
// No `Option` of `left` and `sought`: `drained`, `filled` and the theorems over them are stated over these five fields, and a report for C has each
// of the three as a word, 0 where no charge failed.
#[derive(Clone, Copy)]
pub struct Tank {
    pub fuel: usize,
    pub spent: usize,
    pub empty: bool,
    pub left: usize,
    pub sought: usize,
}

// What a search answers: its choice, if it has one, and the tank that it leaves.
#[derive(Clone, Copy)]
pub struct Found {
    pub choice: Option<Choice>,
    pub meter: Tank,
}

// A question without its fuel: the item's namespace and definition, the viewing module, prefix, options, and the limit, the length
// left at the start. The C question holds numbers, and any number may stand in it.
#[derive(Clone, Copy)]
pub struct Query {
    pub ns: usize,
    pub definition: DefinitionId,
    pub from: ModuleId,
    pub prefix: usize,
    pub options: usize,
    pub limit: usize,
}

// What is asked, with the fuel that its charges may take.
#[derive(Clone, Copy)]
pub struct Question {
    pub query: Query,
    pub fuel: usize,
}

/// Outcomes of a report.
// The C interface: four numbers of a report, whose path stands in fields beside them; an `Option` or a `Result` has two cases.
#[derive(Clone, Copy, PartialEq, Eq)]
pub enum Outcome {
    Found,
    None,
    Refused,
    /// A path was found that means another thing in the viewing module, or nothing.
    Misleads,
}

// A report: an outcome, and the number of a refusal; then the path, the charges, and empty 0 or 1;
// the C report holds numbers, for `outcome` an `Outcome` and for `kind` a `PathKind`;
// `left` and `sought` are those of the first charge that found the tank empty, 0 where none did; `route` and `steps` are the path's.
// Arrays with `count` and `steps` for lengths: C reads this, and the library has no heap for a Vec.
#[derive(Clone, Copy)]
pub struct Report {
    pub outcome: usize,
    pub number: usize,
    pub kind: usize,
    pub names: [usize; 16],
    pub count: usize,
    pub charges: usize,
    pub empty: usize,
    pub left: usize,
    pub sought: usize,
    pub route: [usize; 17],
    pub steps: usize,
}
