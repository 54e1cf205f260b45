// Inner functions on maps: the rules one by one, the first that a map breaks, and where a run of nodes stands.
pub use super::judging::{good_counts, good_parts, good_ranges, judged};
pub use super::runs::run_of;
