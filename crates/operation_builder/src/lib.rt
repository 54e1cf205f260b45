// The maps of the operations, built: each dimension by itself, some of the dimensions, and from shape to shape.
#![tactic(auto)]

mod axes;
mod digits;
pub mod inner;
mod selections;

// What an operation does to its dimensions: nothing, turns the listed round, Joined(dimension, by), cuts them.
#[derive(Clone, Copy)]
pub enum Change {
    Kept,
    Reversed,
    Joined(u64, u64),
    Sliced,
}

// The first count dimensions that a list leaves, in their order, and their sizes; 0 past them.
#[derive(Clone, Copy)]
pub struct Kept {
    pub count: usize,
    pub dims: [u64; shape::MAX_RANK],
    pub sizes: [u64; shape::MAX_RANK],
}
