// Composing two indexing maps: f's results put for g's dimension variables.
#![tactic(auto)]

mod bounds;
mod nodes;
mod parts;
mod whole;

use indexing::IndexingMap;
pub use whole::compose;

// The ends of a constraint.
#[derive(Clone, Copy)]
pub struct Ends {
    pub lower: i64,
    pub upper: i64,
}

// A map, and how many nodes it has, up to one past the most.
#[derive(Clone, Copy)]
pub struct BuiltMap {
    pub nodes: usize,
    pub map: IndexingMap,
}
