// Tables of offsets that others made: what is found in one, and which layout of a list makes it.
#![tactic(auto)]

mod listed;
mod table;

pub use listed::layout_of_table;
use refusal::Refusal;
use shape::Element;
pub use table::judge_table;

// The most elements of a table.
pub const MAX_ELEMENTS: u64 = 4096;

// The most layouts of a list.
pub const MAX_LISTED: usize = 64;

// Sound; the first element whose offset is outside; or the first two elements that share a cell, the earlier one first.
#[derive(Clone, Copy)]
pub enum Finding {
    Sound,
    Outside(Element),
    Shared(Element, Element),
}
