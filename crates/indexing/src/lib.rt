// Indexing maps: the record, judging it, the reckoned ranges of its results and their values at a point.
#![tactic(auto)]

pub mod inner;
mod judging;
mod points;
mod runs;

pub use judging::{judge_map, result_ranges};
pub use points::evaluate;

// The most results of a map.
pub const MAX_RESULTS: usize = 8;

// The most constraints of a map.
pub const MAX_CONSTRAINTS: usize = 32;

// Variables with inclusive bounds (dimensions from place 0 of the two arrays, range variables from 8, runtime variables from 16, of
// which there are none), results and constraints by the number of their nodes, constraints with their ends, and all nodes in postfix
// order, a kind and a value each, those of the results first. What stands past the counts is not read.
#[derive(Clone, Copy)]
pub struct IndexingMap {
    pub dims: usize,
    pub ranges: usize,
    pub lower: [i64; 24],
    pub upper: [i64; 24],
    pub results: usize,
    pub result_nodes: [usize; 8],
    pub constraints: usize,
    pub constraint_nodes: [usize; 32],
    pub constraint_lower: [i64; 32],
    pub constraint_upper: [i64; 32],
    pub kinds: [u8; 256],
    pub values: [i64; 256],
}

// The reckoned ranges of the first results, and 0 past them.
#[derive(Clone, Copy)]
pub struct ResultRanges {
    pub results: usize,
    pub lower: [i64; 8],
    pub upper: [i64; 8],
}

// The values of the first results, and 0 past them.
#[derive(Clone, Copy)]
pub struct ResultValues {
    pub results: usize,
    pub values: [i64; 8],
}
