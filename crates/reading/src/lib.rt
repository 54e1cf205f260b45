// Reading the line of a request: its tokens, the pieces that they make up, and the buffers that it lends. A line is any bytes.
#![tactic(auto)]

mod buffers;
mod pieces;
mod token;

pub use buffers::{Lengths, PLACES, count_up, front};
pub use pieces::{List, first_of, no_layout, put_at};
pub use token::{Line, Unreadable, count_digits, same};
