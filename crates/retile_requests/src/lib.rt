// The request `retile`: a shape, the layouts of source and destination, the runs, and the lengths lent.
#![tactic(auto)]

mod arguments;
mod runs;

use arguments::read_arguments;
use reading::{Line, PLACES, count_up, first_of, front};
use runs::{judge_runs, put_runs};
use std::io::Write;
use writing::{Failure, Spaced, text};

// What a cell of the destination holds before the first run.
const BEFORE: u32 = 9999;

// The output may be written out as soon as it is put, so all runs are judged before.
pub fn answer_retile<W: Write>(mut line: Line<'_>, out: &mut W) -> Result<(), Failure> {
    let arguments = read_arguments(&mut line)?;
    line.finish()?;
    let mut source = [0; PLACES];
    let mut cells = [BEFORE; PLACES];
    let source = front(&mut source, arguments.lengths.given);
    let cells = front(&mut cells, arguments.lengths.made);
    count_up(source, 1);
    judge_runs(&arguments, source, cells)?;
    text(out, b"settled")?;
    let mark = put_runs(&arguments, out, source, cells)?;
    let size = layout::padded_size(arguments.shape, arguments.wanted)?;
    let settled = Spaced(first_of(cells, size as usize));
    write!(out, " mark {mark} cells{settled}")?;
    Ok(())
}
