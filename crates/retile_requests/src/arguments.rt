// The arguments of a re-tiling, as its line has them. The runs stay in the line, and are read again as they are made.
use layout::Layout;
use reading::{Lengths, Line, Unreadable};
use shape::Shape;

#[derive(Clone, Copy)]
pub struct Arguments<'a> {
    pub shape: Shape,
    // The layouts of the source and of the destination.
    pub given: Layout,
    pub wanted: Layout,
    // The line, read up to the runs.
    pub runs: Line<'a>,
    // The lengths of the source and of the destination.
    pub lengths: Lengths,
}

// A run: the mark that it finds, and its allowance.
#[derive(Clone, Copy, Debug)]
pub struct Run {
    pub mark: u64,
    pub allowance: u64,
}

pub fn read_run(line: &mut Line<'_>) -> Result<Run, Unreadable> {
    let mark = line.unsigned()?;
    line.expect(b':')?;
    let allowance = line.unsigned()?;
    Ok(Run { mark, allowance })
}

// Whether a run follows: the next token is its mark.
pub fn is_run_next(line: &Line<'_>) -> bool {
    let mut ahead = *line;
    ahead.number().is_ok() && ahead.is_next(b':')
}

// Reads one run or more.
fn read_runs(line: &mut Line<'_>) -> Result<(), Unreadable> {
    for _ in 0..line.length() {
        read_run(line)?;
        if !is_run_next(line) {
            break;
        }
    }
    Ok(())
}

pub fn read_arguments<'a>(line: &mut Line<'a>) -> Result<Arguments<'a>, Unreadable> {
    let shape = line.shape()?;
    let given = line.layout()?;
    let wanted = line.layout()?;
    let runs = *line;
    read_runs(line)?;
    let lengths = line.buffer_lengths()?;
    Ok(Arguments {
        shape,
        given,
        wanted,
        runs,
        lengths,
    })
}
