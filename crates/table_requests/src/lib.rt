// The requests on tables of offsets: `table`, with a shape, a padded size and the offsets, and `which`, with layouts
// behind them.
#![tactic(auto)]

use layout::Layout;
use offset_table::Finding;
use reading::{Line, Unreadable, no_layout, put_at};
use shape::Shape;
use std::io::Write;
use writing::{Failure, text};

// The places of the buffer for a table's offsets, one more than any table has.
const PLACES: usize = 4097;

// What stands before the layouts: a shape, a padded size, and the first offsets of the table.
#[derive(Clone, Copy)]
struct Table<'b> {
    shape: Shape,
    padded: u64,
    offsets: &'b [u64],
}

// Reads a table whose offsets go into a lent buffer.
fn read_table<'b>(line: &mut Line<'_>, buffer: &'b mut [u64]) -> Result<Table<'b>, Unreadable> {
    let shape = line.shape()?;
    let padded = line.unsigned()?;
    let offsets = line.table(buffer)?;
    Ok(Table {
        shape,
        padded,
        offsets,
    })
}

// Reads layouts, or none, into a lent buffer, which holds as many as it has places for. The answer is how many there are.
fn read_layouts(line: &mut Line<'_>, layouts: &mut [Layout]) -> Result<usize, Unreadable> {
    let most = line.length();
    for place in 0..most {
        if !line.is_next(b'{') {
            return Ok(place);
        }
        put_at(layouts, place, line.layout()?);
    }
    Ok(most)
}

pub fn answer_table<W: Write>(mut line: Line<'_>, out: &mut W) -> Result<(), Failure> {
    let mut buffer = [0; PLACES];
    let table = read_table(&mut line, &mut buffer)?;
    line.finish()?;
    match offset_table::judge_table(table.shape, table.offsets, table.padded)? {
        Finding::Sound => text(out, b"sound")?,
        Finding::Outside(element) => write!(out, "outside {}", element.0)?,
        Finding::Shared(earlier, later) => write!(out, "shared {} {}", earlier.0, later.0)?,
    }
    Ok(())
}

// The answer to the question which of the layouts makes a table.
pub fn answer_which<W: Write>(mut line: Line<'_>, out: &mut W) -> Result<(), Failure> {
    let mut buffer = [0; PLACES];
    let mut layouts = [no_layout(); 64];
    let table = read_table(&mut line, &mut buffer)?;
    let count = read_layouts(&mut line, &mut layouts)?;
    line.finish()?;
    let place = offset_table::layout_of_table(
        table.shape,
        table.offsets,
        table.padded,
        layouts,
        count,
    )?;
    write!(out, "layout {place}")?;
    Ok(())
}
