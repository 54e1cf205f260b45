// Reading an indexing map from the line of a request.
#![tactic(auto)]

mod bounds;
mod constraints;
mod expressions;
mod head;
mod map;
mod nodes;
mod results;
mod stack;
mod variables;

pub use map::read_map;
pub use nodes::Kind;
pub use variables::{Sort, Variable};
