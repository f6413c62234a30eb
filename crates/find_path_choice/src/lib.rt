//! Paths to choose from, and which of two is better.
//! Uses the check; no lookup.
#![tactic(auto)]

pub mod choices;

// A path. `kind` is the number of a `PathKind`, as the C report holds it; `path_text_len` is the length of its text;
// `has_prelude_segment` says that a name of it is `prelude`. `route` says how it came about, a step for its start and one for each further
// name: eight times the place of the record used, plus the rule.
// No heap, so both lists are arrays of the most that there can be; `count` and `steps` are how many stand in them.
// The definitions have a record with `found` beside these fields: `chosen` is a path as that record, `given` an `Option` of one.
// `kind` is a number here, in `keyword`, in `Choice::new` and in `path_kind_len`: they are public and take any, of which a `PathKind` is five.
// Bounds of the counts stay clauses: `path_len` takes a count that has no room for a name, `push` does not, so a bound here would ask too much
// of one or too little for the other.
// `stable` and `has_prelude_segment` are the Rust's, and `better` compares by them.
#[derive(Clone, Copy)]
pub struct Choice {
    pub kind: usize,
    pub names: [usize; 16],
    pub count: usize,
    pub path_text_len: usize,
    pub stable: bool,
    pub has_prelude_segment: bool,
    pub route: [usize; 17],
    pub steps: usize,
}
