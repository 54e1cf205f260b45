// Folding an indexing map: the public call, and the parts of it.
#![tactic(auto)]

mod parts;
mod whole;

pub use whole::fold_map;

// What stays of the constraints: the place past their nodes, and how many they are.
#[derive(Clone, Copy)]
pub struct Remaining {
    pub at: usize,
    pub count: usize,
}

// A constraint folded: a sum formed passes a limit; it goes; or it stays, and its nodes end before a place.
#[derive(Clone, Copy)]
pub enum FoldedConstraint {
    Passed,
    Gone,
    Stays(usize),
}
