// Inner functions of the library: a map over a shape that keeps its limits.
pub use super::axes::{entry, plain_axes, shape_axes};
pub use super::digits::shape_reshape;
pub use super::selections::{none_selection, rest_selection, shape_selection};
