// Nodes of indexing maps written, folded sums back to nodes, and records made of parts. Inner functions of the library.
#![tactic(auto)]

mod emitting;
mod nodes;
mod records;
mod writing;

pub use emitting::emit_sum;
pub use nodes::write_node;
pub use records::record_of;
pub use writing::put_node;
