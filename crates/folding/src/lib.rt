// Folding of expressions: definitions and laws. The code that folds stands in the crates above.
#![tactic(auto)]

// The most atoms of a folded sum, at every depth: no more than a map has nodes.
pub const MAX_ATOMS: usize = 256;
