// The operations' maps, output to input and input to output: judged, built and folded.
#![tactic(auto)]

mod changing;
mod joining;
mod judging;
mod reshaping;
mod selecting;
mod ways;

pub use changing::{elementwise, reverse, slice};
pub use joining::concatenate;
pub use operation_maps::Way;
pub use reshaping::reshape;
pub use selecting::{broadcast, reduce, reduce_init, transpose};
use shape::Shape;

// The most operands of a concatenation.
pub const MAX_OPERANDS: usize = 8;

// The largest stride of a slice.
pub const MAX_STRIDE: u64 = 1048576;

// The first count operands of a concatenation. What stands past them is not read.
#[derive(Clone, Copy)]
pub struct Operands {
    pub count: usize,
    pub shapes: [Shape; MAX_OPERANDS],
}
