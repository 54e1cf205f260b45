// Folded sums as words in arrays: made, merged, and their reckoned ranges. Inner functions of the library.
#![tactic(auto)]

mod making;
mod merging;
mod numbers;
mod places;
mod ranges;
mod writing;

pub use making::{part_p, part_r, scale, wrap};
pub use merging::blend;
pub use numbers::{add, times};
pub use places::{back, forward, magnitude_at, skip, skip_atom, word};
pub use ranges::{reckon, try_at};
pub use writing::{copy, put};

// A sum that was written: its number of terms, and the place past it.
#[derive(Clone, Copy)]
pub struct Made {
    pub n: usize,
    pub at: usize,
}

// Whether the limits are kept, and then the ends of a range.
#[derive(Clone, Copy)]
pub struct Reckoned {
    pub ok: bool,
    pub lo: i64,
    pub hi: i64,
}

// Whether R keeps the limits, whether it lies between two neighbouring multiples of g, and which.
#[derive(Clone, Copy)]
pub struct Tried {
    pub ok: bool,
    pub fit: bool,
    pub q: i64,
}
