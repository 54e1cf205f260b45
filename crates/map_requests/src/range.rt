// The request `range`: the reckoned ranges of a map's results.
use map_reading::read_map;
use reading::{Line, first_of};
use std::io::Write;
use writing::{Failure, put, text};

pub fn answer_range<W: Write>(mut line: Line<'_>, out: &mut W) -> Result<(), Failure> {
    let map = read_map(&mut line)?;
    line.finish()?;
    let ranges = indexing::result_ranges(map)?;
    let lowers = first_of(&ranges.lower, ranges.results);
    text(out, b"ranges")?;
    for (lower, upper) in lowers.iter().zip(&ranges.upper) {
        put(out, b' ')?;
        write!(out, "[{lower}, {upper}]")?;
    }
    Ok(())
}
