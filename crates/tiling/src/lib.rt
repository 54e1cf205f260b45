// Tiles over lists of sizes: the physical shape, the offset of an element, and what a cell holds. Inner functions of the library.
#![tactic(auto)]

mod cell;
mod lists;
mod physical;
mod row;
mod runs;
mod tiled;

pub use lists::{cell_found, element_offset, padded_cells};
pub use physical::{Physical, dims_into, physical_dims, reverse_into};
pub use row::{Reach, row_reach};
pub use tiled::Tiled;
