// The answers on buffers: packing, unpacking, storing and loading over lent parts of arrays.
use crate::read_tiled;
use reading::{Line, PLACES, count_up, first_of, front};
use shape::Element;
use std::io::Write;
use writing::{Failure, Spaced};

// What a place that the call is to write holds before it.
const BEFORE: u32 = 7;

pub fn answer_pack<W: Write>(mut line: Line<'_>, out: &mut W) -> Result<(), Failure> {
    let (shape, layout) = read_tiled(&mut line)?;
    let lengths = line.buffer_lengths()?;
    line.finish()?;
    let mut source = [0; PLACES];
    let mut cells = [BEFORE; PLACES];
    let source = front(&mut source, lengths.given);
    let cells = front(&mut cells, lengths.made);
    count_up(source, 1);
    pack::pack(shape, layout, source, cells)?;
    let size = layout::padded_size(shape, layout)?;
    write!(out, "cells{}", Spaced(first_of(cells, size as usize)))?;
    Ok(())
}

pub fn answer_unpack<W: Write>(mut line: Line<'_>, out: &mut W) -> Result<(), Failure> {
    let (shape, layout) = read_tiled(&mut line)?;
    let lengths = line.buffer_lengths()?;
    line.finish()?;
    let mut cells = [0; PLACES];
    let mut elements = [BEFORE; PLACES];
    let cells = front(&mut cells, lengths.given);
    let elements = front(&mut elements, lengths.made);
    count_up(cells, 0);
    pack::unpack(shape, layout, cells, elements)?;
    let count = shape::element_count(shape)?;
    write!(
        out,
        "elements{}",
        Spaced(first_of(elements, count as usize))
    )?;
    Ok(())
}

pub fn answer_store<W: Write>(mut line: Line<'_>, out: &mut W) -> Result<(), Failure> {
    let (shape, layout) = read_tiled(&mut line)?;
    let element = Element(line.unsigned()?);
    let value = line.value()?;
    let length = line.buffer_length()?;
    line.finish()?;
    let mut cells = [BEFORE; PLACES];
    let cells = front(&mut cells, length);
    pack::store(shape, layout, element, value, cells)?;
    let size = layout::padded_size(shape, layout)?;
    write!(out, "cells{}", Spaced(first_of(cells, size as usize)))?;
    Ok(())
}

pub fn answer_load<W: Write>(mut line: Line<'_>, out: &mut W) -> Result<(), Failure> {
    let (shape, layout) = read_tiled(&mut line)?;
    let element = Element(line.unsigned()?);
    let length = line.buffer_length()?;
    line.finish()?;
    let mut cells = [0; PLACES];
    let cells = front(&mut cells, length);
    count_up(cells, 0);
    let value = pack::load(shape, layout, element, cells)?;
    write!(out, "value {value}")?;
    Ok(())
}
