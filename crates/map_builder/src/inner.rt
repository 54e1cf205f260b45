// Inner functions of the library: every step of a map under way.
pub use super::drafts::{add_bound, add_range_to, empty, end_constraint, end_result};
pub use super::loops::{add_selected, add_variables, add_whole, push_linear};
pub use super::signs::{natural, negative};
pub use super::trees::{push_affine, push_floordiv, push_mod, push_shifted, push_variable};
