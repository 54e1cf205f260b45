// The rules of folding for S floordiv c and S mod c, over sums that stand as words. Inner functions of the library.
#![tactic(auto)]

mod applying;
mod rewriting;

pub use applying::apply_rule;
pub use rewriting::apply_rules;

// What one rule makes of a floordiv or mod: a limit is passed; a sum, by its number of terms and its end; or a new floordiv or mod.
#[derive(Clone, Copy)]
pub enum Applied {
    Passed,
    Sum(usize, usize),
    Again(Again),
}

// The factor times (the sum that stands from 0 to end, floordiv or mod the divisor), and the sum from end to rest_end.
#[derive(Clone, Copy)]
pub struct Again {
    pub factor: i64,
    pub divisor: i64,
    pub terms: usize,
    pub end: usize,
    pub rest_terms: usize,
    pub rest_end: usize,
}

// The sum that all rules make of a floordiv or mod: whether every sum formed keeps the limits, its number of terms and its end.
#[derive(Clone, Copy)]
pub struct Rewritten {
    pub small: bool,
    pub terms: usize,
    pub end: usize,
}
