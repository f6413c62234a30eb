//! Whether any path names an item in a module, and a shortest one.

mod asked;
pub mod entry;
pub mod numbers;
pub mod report;

/// The answer, in numbers for C: 0 a path, 1 there is none, 2 a refusal with its number, 3 there are paths and each has more than sixteen
/// names (`AnyOutcome`); then the path: its kind as a report's, how many times `super`, its names, how many they are, and the places of the
/// records by which they are read.
// The arrays are sixteen words each of C's report, of which `count` are used: there is no heap.
#[derive(Clone, Copy)]
pub struct AnyReport {
    pub outcome: usize,
    pub number: usize,
    pub kind: usize,
    pub supers: usize,
    pub names: [usize; 16],
    pub count: usize,
    pub route: [usize; 16],
}
