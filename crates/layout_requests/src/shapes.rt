// The answers on shapes: the numbers of elements and their points.
use reading::{Line, first_of};
use shape::{Element, Shape};
use std::io::Write;
use writing::{Failure, Tuple};

pub fn answer_number<W: Write>(mut line: Line<'_>, out: &mut W) -> Result<(), Failure> {
    let shape = line.shape()?;
    let point = line.point()?;
    line.finish()?;
    let element = shape::element_number(shape, point.items())?;
    write!(out, "element {}", element.0)?;
    Ok(())
}

pub fn answer_point<W: Write>(mut line: Line<'_>, out: &mut W) -> Result<(), Failure> {
    let shape = line.shape()?;
    let element = Element(line.unsigned()?);
    line.finish()?;
    put_point(out, "point", shape, element)
}

// Puts a word and the point of an element.
pub fn put_point<W: Write>(
    out: &mut W,
    word: &str,
    shape: Shape,
    element: Element,
) -> Result<(), Failure> {
    let point = shape::element_point(shape, element)?;
    let coordinates = Tuple(first_of(&point.coordinates, point.rank));
    write!(out, "{word} {coordinates}")?;
    Ok(())
}
