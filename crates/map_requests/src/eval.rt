// The request `eval`: a map at a point.
use crate::numbers::read_numbers;
use map_reading::read_map;
use reading::{Line, Unreadable, first_of};
use std::io::Write;
use writing::{Failure, Tuple};

// The places of a buffer for numbers, of which a line has fewer than half its bytes.
const PLACES: usize = 32768;

// Reads the values of the range variables, which may be left out.
fn read_ranges<'b>(line: &mut Line<'_>, buffer: &'b mut [i64]) -> Result<&'b [i64], Unreadable> {
    if !line.is_next(b'[') {
        return Ok(first_of(buffer, 0));
    }
    read_numbers(line, b'[', b']', buffer)
}

pub fn answer_eval<W: Write>(mut line: Line<'_>, out: &mut W) -> Result<(), Failure> {
    let mut dims = [0; PLACES];
    let mut ranges = [0; PLACES];
    let map = read_map(&mut line)?;
    line.expect_word(b"at")?;
    let dims = read_numbers(&mut line, b'(', b')', &mut dims)?;
    let ranges = read_ranges(&mut line, &mut ranges)?;
    line.finish()?;
    let answer = indexing::evaluate(map, dims, ranges)?;
    let values = Tuple(first_of(&answer.values, answer.results));
    write!(out, "value {values}")?;
    Ok(())
}
