//! What a local search keeps in the work area: its levels, and the modules that are walked once.
//! Uses the lookups and laws of the search.
#![tactic(auto)]

ghost use Rattle.find_path_levels.specs.Levels.{Small, small_prop};

pub mod levels;
pub mod locations;
pub mod walk_once;

use hir_def::Item;

/// The item that a local search is for: its level keeps it as one word.
#[derive(Clone, Copy)]
pub struct Sought {
    pub item: Item,
    ghost small: { Small item } by { small_prop item },
}

// The local searches under way, as levels in the work area: the first free word, the place of the last level's run, and how
// many there are.
#[derive(Clone, Copy)]
pub struct Stack {
    pub top: usize,
    pub place: usize,
    pub depth: usize,
}
