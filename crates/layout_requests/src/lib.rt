// The requests on shapes, layouts and buffers, by name, and the answers to them.
#![tactic(auto)]

mod buffers;
mod grid;
mod layouts;
mod shapes;

use layout::Layout;
use reading::{Line, Unreadable};
use shape::Shape;
use std::io::Write;
use writing::Failure;

#[derive(Clone, Copy, Debug, PartialEq, Eq)]
pub enum Request {
    Padded,
    Offset,
    Cell,
    Card,
    Fit,
    Grid,
    Number,
    Point,
    Pack,
    Unpack,
    Store,
    Load,
}

impl Request {
    // The request of that name.
    pub fn named(name: &[u8]) -> Option<Request> {
        match name {
            b"padded" => Some(Request::Padded),
            b"offset" => Some(Request::Offset),
            b"cell" => Some(Request::Cell),
            b"card" => Some(Request::Card),
            b"fit" => Some(Request::Fit),
            b"grid" => Some(Request::Grid),
            b"number" => Some(Request::Number),
            b"point" => Some(Request::Point),
            b"pack" => Some(Request::Pack),
            b"unpack" => Some(Request::Unpack),
            b"store" => Some(Request::Store),
            b"load" => Some(Request::Load),
            _ => None,
        }
    }

    // The answer to a line that is read up to the request's arguments.
    pub fn answer<W: Write>(self, line: Line<'_>, out: &mut W) -> Result<(), Failure> {
        match self {
            Request::Padded => layouts::answer_padded(line, out),
            Request::Offset => layouts::answer_offset(line, out),
            Request::Cell => layouts::answer_cell(line, out),
            Request::Card => layouts::answer_card(line, out),
            Request::Fit => layouts::answer_fit(line, out),
            Request::Grid => grid::answer_grid(line, out),
            Request::Number => shapes::answer_number(line, out),
            Request::Point => shapes::answer_point(line, out),
            Request::Pack => buffers::answer_pack(line, out),
            Request::Unpack => buffers::answer_unpack(line, out),
            Request::Store => buffers::answer_store(line, out),
            Request::Load => buffers::answer_load(line, out),
        }
    }
}

// Reads a shape and its layout.
fn read_tiled(line: &mut Line<'_>) -> Result<(Shape, Layout), Unreadable> {
    let shape = line.shape()?;
    let layout = line.layout()?;
    Ok((shape, layout))
}
