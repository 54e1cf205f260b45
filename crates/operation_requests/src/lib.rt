// The requests for the maps of operations, by name, and the answers to them.
#![tactic(auto)]

mod cuts;
mod lists;
mod operands;
mod shapes;
mod ways;

use reading::Line;
use std::io::Write;
use writing::Failure;

#[derive(Clone, Copy, Debug, PartialEq, Eq)]
pub enum Operation {
    Elementwise,
    Broadcast,
    Transpose,
    Reverse,
    Concatenate,
    Reduce,
    Slice,
    Reshape,
}

impl Operation {
    // The operation of that name.
    pub fn named(name: &[u8]) -> Option<Operation> {
        match name {
            b"elementwise" => Some(Operation::Elementwise),
            b"broadcast" => Some(Operation::Broadcast),
            b"transpose" => Some(Operation::Transpose),
            b"reverse" => Some(Operation::Reverse),
            b"concatenate" => Some(Operation::Concatenate),
            b"reduce" => Some(Operation::Reduce),
            b"slice" => Some(Operation::Slice),
            b"reshape" => Some(Operation::Reshape),
            _ => None,
        }
    }

    // The answer to a line that is read up to the request's arguments.
    pub fn answer<W: Write>(self, line: Line<'_>, out: &mut W) -> Result<(), Failure> {
        match self {
            Operation::Elementwise => shapes::answer_elementwise(line, out),
            Operation::Broadcast => lists::answer_broadcast(line, out),
            Operation::Transpose => lists::answer_transpose(line, out),
            Operation::Reverse => lists::answer_reverse(line, out),
            Operation::Concatenate => operands::answer_concatenate(line, out),
            Operation::Reduce => lists::answer_reduce(line, out),
            Operation::Slice => cuts::answer_slice(line, out),
            Operation::Reshape => shapes::answer_reshape(line, out),
        }
    }
}
