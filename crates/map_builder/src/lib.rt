// A map made step by step: variables with their bounds, the nodes of trees, results and constraints.
#![tactic(auto)]

mod drafts;
pub mod inner;
mod loops;
mod signs;
mod trees;

use indexing::IndexingMap;

// A map under way: how many nodes it has, and how many of them belong to the tree that is not ended yet.
#[derive(Clone, Copy)]
pub struct Draft {
    pub map: IndexingMap,
    pub at: usize,
    pub under: usize,
}
