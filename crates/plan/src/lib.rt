// Plans through stations in a row: definitions and theorems, as they were before stations could fork, and the record of
// a plan. An inner part of the library.
#![tactic(auto)]

// The best plan, one place a station, and its cost.
#[derive(Clone, Copy)]
pub struct Plan {
    pub places: [usize; 64],
    pub total: u64,
}
