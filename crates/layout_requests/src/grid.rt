// The request `grid`: a table of the elements' offsets, and the padding's offsets.
use crate::read_tiled;
use layout::{Layout, Offset};
use reading::Line;
use shape::{Element, Shape};
use std::io::Write;
use writing::{Failure, put, text};

// The most cells of a table.
const MOST: u64 = 4096;

pub fn answer_grid<W: Write>(mut line: Line<'_>, out: &mut W) -> Result<(), Failure> {
    let column = line.place().saturating_add(1);
    let (shape, layout) = read_tiled(&mut line)?;
    line.finish()?;
    let cells = layout::padded_size(shape, layout)?;
    if cells > MOST || !(shape.rank == 1 || shape.rank == 2) {
        write!(
            out,
            "error: a grid has rank 1 or 2 and at most 4096 cells at column {column}"
        )?;
        return Ok(());
    }
    put_table(out, shape, layout, cells)?;
    put_padding(out, shape, layout, cells)
}

// The offsets of the elements, in rows of as many entries as the shape's last size, right in fields for the largest offset.
fn put_table<W: Write>(
    out: &mut W,
    shape: Shape,
    layout: Layout,
    cells: u64,
) -> Result<(), Failure> {
    let columns = if shape.rank == 1 {
        shape.sizes[0]
    } else {
        shape.sizes[1]
    };
    let field = digits_of(cells.saturating_sub(1));
    for element in 0..shape::element_count(shape)? {
        match element.checked_rem(columns) {
            _ if element == 0 => {}
            Some(0) => put(out, b'\n')?,
            _ => put(out, b' ')?,
        }
        let offset = layout::offset_of_element(shape, layout, Element(element))?.0;
        write!(out, "{offset:>field$}")?;
    }
    Ok(())
}

// How many decimal digits a number has.
fn digits_of(number: u64) -> usize {
    number
        .checked_ilog10()
        .map_or(1, |power| power as usize + 1)
}

// The offsets of the cells that are padding.
fn put_padding<W: Write>(
    out: &mut W,
    shape: Shape,
    layout: Layout,
    cells: u64,
) -> Result<(), Failure> {
    text(out, b"\npadding")?;
    let mut none = true;
    for offset in 0..cells {
        if layout::element_at(shape, layout, Offset(offset))?.is_none() {
            write!(out, " {offset}")?;
            none = false;
        }
    }
    if none {
        text(out, b" none")?;
    }
    Ok(())
}
