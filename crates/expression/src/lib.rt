// Expressions of indexing maps as nodes in postfix order: reading nodes, trees, values and reckoned ranges. Inner functions of the library.
#![tactic(auto)]

mod nodes;
mod reckoning;
mod trees;
mod values;

pub use nodes::{MAX_NODES, MAX_VARIABLES, is_small, node_of};
pub use reckoning::range_of;
pub use trees::is_tree;
pub use values::value_of;

// What stands at a leaf of a tree: a dimension or a range variable by its number, or a constant.
#[derive(Clone, Copy)]
pub enum Leaf {
    Dim(usize),
    Range(usize),
    Constant(i64),
}

// What is done to one tree.
#[derive(Clone, Copy)]
pub enum One {
    Product(i64),
    Floordiv(i64),
    Mod(i64),
}

// A node of a tree that stands in postfix order.
#[derive(Clone, Copy)]
pub enum Node {
    Leaf(Leaf),
    One(One),
    Sum,
    Bad,
}
