// The requests with a list of dimensions: `transpose`, `reverse`, `reduce` and `broadcast`.
use crate::ways::{ReduceWay, read_reduce_way, read_way};
use map_printing::print_map;
use reading::Line;
use std::io::Write;
use writing::Failure;

// The places of the buffer for a list, of which a line has fewer numbers than half its bytes.
const PLACES: usize = 32768;

pub fn answer_transpose<W: Write>(mut line: Line<'_>, out: &mut W) -> Result<(), Failure> {
    let mut buffer = [0; PLACES];
    let input = line.shape()?;
    let dimensions = line.dimensions(&mut buffer)?;
    let way = read_way(&mut line)?;
    let map = operations::transpose(way, input, dimensions)?;
    print_map(out, &map)?;
    Ok(())
}

pub fn answer_reverse<W: Write>(mut line: Line<'_>, out: &mut W) -> Result<(), Failure> {
    let mut buffer = [0; PLACES];
    let input = line.shape()?;
    let dimensions = line.dimensions(&mut buffer)?;
    let way = read_way(&mut line)?;
    let map = operations::reverse(way, input, dimensions)?;
    print_map(out, &map)?;
    Ok(())
}

pub fn answer_reduce<W: Write>(mut line: Line<'_>, out: &mut W) -> Result<(), Failure> {
    let mut buffer = [0; PLACES];
    let input = line.shape()?;
    let dimensions = line.dimensions(&mut buffer)?;
    let map = match read_reduce_way(&mut line)? {
        ReduceWay::Input(way) => operations::reduce(way, input, dimensions)?,
        ReduceWay::Init(way) => operations::reduce_init(way, input, dimensions)?,
    };
    print_map(out, &map)?;
    Ok(())
}

pub fn answer_broadcast<W: Write>(mut line: Line<'_>, out: &mut W) -> Result<(), Failure> {
    let mut buffer = [0; PLACES];
    let input = line.shape()?;
    let output = line.shape()?;
    let dimensions = line.dimensions(&mut buffer)?;
    let way = read_way(&mut line)?;
    let map = operations::broadcast(way, input, output, dimensions)?;
    print_map(out, &map)?;
    Ok(())
}
