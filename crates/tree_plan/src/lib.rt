// Plans over a tree of stations: definitions and theorems. An inner part of the library.
#![tactic(auto)]

// The most stations.
pub const MAX_STATIONS: usize = 64;
