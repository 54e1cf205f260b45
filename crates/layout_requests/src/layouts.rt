// The answers on layouts: sizes, offsets, cells, cards and fits.
use crate::read_tiled;
use crate::shapes::put_point;
use layout::{Fit, Offset};
use reading::Line;
use std::io::Write;
use writing::{Failure, Pattern, text};

pub fn answer_padded<W: Write>(mut line: Line<'_>, out: &mut W) -> Result<(), Failure> {
    let (shape, layout) = read_tiled(&mut line)?;
    line.finish()?;
    let size = layout::padded_size(shape, layout)?;
    write!(out, "padded {size}")?;
    Ok(())
}

pub fn answer_offset<W: Write>(mut line: Line<'_>, out: &mut W) -> Result<(), Failure> {
    let (shape, layout) = read_tiled(&mut line)?;
    let point = line.point()?;
    line.finish()?;
    let offset = layout::offset_of_point(shape, layout, point.items())?;
    write!(out, "offset {}", offset.0)?;
    Ok(())
}

pub fn answer_cell<W: Write>(mut line: Line<'_>, out: &mut W) -> Result<(), Failure> {
    let (shape, layout) = read_tiled(&mut line)?;
    let offset = Offset(line.unsigned()?);
    line.finish()?;
    match layout::element_at(shape, layout, offset)? {
        Some(element) => put_point(out, "element", shape, element),
        None => {
            text(out, b"padding")?;
            Ok(())
        }
    }
}

pub fn answer_card<W: Write>(mut line: Line<'_>, out: &mut W) -> Result<(), Failure> {
    let (shape, layout) = read_tiled(&mut line)?;
    line.finish()?;
    let card = layout::layout_card(shape, layout)?;
    write!(
        out,
        "fill {} waste {}",
        Pattern(card.fill),
        Pattern(card.waste)
    )?;
    Ok(())
}

pub fn answer_fit<W: Write>(mut line: Line<'_>, out: &mut W) -> Result<(), Failure> {
    let (shape, layout) = read_tiled(&mut line)?;
    let limit = line.unsigned()?;
    line.finish()?;
    match layout::fit_verdict(shape, layout, limit)? {
        Fit::Fits(share) => write!(out, "fits {}", Pattern(share))?,
        Fit::Over(share) => write!(out, "over {}", Pattern(share))?,
    }
    Ok(())
}
