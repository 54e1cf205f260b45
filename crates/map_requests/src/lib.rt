// The requests on indexing maps, and the answers to them.
#![tactic(auto)]

mod eval;
mod maps;
mod numbers;
mod range;

pub use eval::answer_eval;
pub use maps::{answer_compose, answer_fold};
pub use range::answer_range;
