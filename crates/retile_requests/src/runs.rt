// The runs of a line, made in turn on the same source and destination.
use crate::arguments::{Arguments, Run, is_run_next, read_run};
use refusal::Refusal;
use retile::retile;
use std::io::Write;
use writing::Failure;

// Makes a run. The answer is how many cells it settled, and the mark that it leaves.
fn make_run(
    arguments: &Arguments<'_>,
    run: Run,
    source: &[u32],
    cells: &mut [u32],
) -> Result<(u64, u64), Refusal> {
    let mut mark = run.mark;
    let settled = retile(
        arguments.shape,
        arguments.given,
        arguments.wanted,
        source,
        cells,
        &mut mark,
        run.allowance,
    )?;
    Ok((settled, mark))
}

// Judges the runs in turn, up to the first one that is refused. The allowance plays no part in that, and with none a run
// changes nothing.
pub fn judge_runs(
    arguments: &Arguments<'_>,
    source: &[u32],
    cells: &mut [u32],
) -> Result<(), Failure> {
    let mut line = arguments.runs;
    for _ in 0..line.length() {
        if !is_run_next(&line) {
            break;
        }
        let run = read_run(&mut line)?;
        make_run(
            arguments,
            Run {
                allowance: 0,
                ..run
            },
            source,
            cells,
        )?;
    }
    Ok(())
}

// Makes the runs, none of which is refused, and puts how many cells each settled. The answer is the last mark.
pub fn put_runs<W: Write>(
    arguments: &Arguments<'_>,
    out: &mut W,
    source: &[u32],
    cells: &mut [u32],
) -> Result<u64, Failure> {
    let mut line = arguments.runs;
    let mut last = 0;
    for _ in 0..line.length() {
        if !is_run_next(&line) {
            break;
        }
        let run = read_run(&mut line)?;
        let (settled, mark) = make_run(arguments, run, source, cells)?;
        write!(out, " {settled}")?;
        last = mark;
    }
    Ok(last)
}
