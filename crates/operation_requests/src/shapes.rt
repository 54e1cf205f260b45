// The requests whose arguments are shapes alone: `elementwise` and `reshape`.
use crate::ways::read_way;
use map_printing::print_map;
use reading::Line;
use std::io::Write;
use writing::Failure;

pub fn answer_elementwise<W: Write>(mut line: Line<'_>, out: &mut W) -> Result<(), Failure> {
    let input = line.shape()?;
    let way = read_way(&mut line)?;
    let map = operations::elementwise(way, input)?;
    print_map(out, &map)?;
    Ok(())
}

pub fn answer_reshape<W: Write>(mut line: Line<'_>, out: &mut W) -> Result<(), Failure> {
    let input = line.shape()?;
    let output = line.shape()?;
    let way = read_way(&mut line)?;
    let map = operations::reshape(way, input, output)?;
    print_map(out, &map)?;
    Ok(())
}
