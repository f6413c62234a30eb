//! What a run of `any_path` found, told as a path with the places of the records by which it is read.
//! Uses `any_path` and the reading of a path.
#![tactic(auto)]

pub mod arrivals;
pub mod paths;
pub mod shortest_paths;
pub mod told_routes;

use snapshot::ids::PathKind;

/// A path: its kind, how many times `super`, its names, and how many they are. Of one with more than sixteen names only their number is told: the
/// rest is that of a plain path without names.
// Sixteen places and a count: a Vec needs a heap, and C gets the places as they stand.
#[derive(Clone, Copy)]
pub struct ToldPath {
    pub kind: PathKind,
    pub supers: usize,
    pub names: [usize; 16],
    pub count: usize,
}
