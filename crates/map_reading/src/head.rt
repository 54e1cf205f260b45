// Reading a map's head: the names of its variables.
use crate::variables::{Sort, Variable, expect_variable};
use indexing::IndexingMap;
use reading::{Line, Unreadable};

// Reads names with commas between them, in the order of their numbers from 0. The answer is how many there are.
fn read_names(line: &mut Line<'_>, sort: Sort) -> Result<usize, Unreadable> {
    let most = line.length();
    for number in 0..most {
        expect_variable(line, Variable { sort, number })?;
        if !line.accept(b',') {
            return Ok(number + 1);
        }
    }
    Ok(most)
}

// Reads the names of a sort, or none, up to the bracket that closes.
fn read_names_before(line: &mut Line<'_>, sort: Sort, close: u8) -> Result<usize, Unreadable> {
    if line.accept(close) {
        return Ok(0);
    }
    let count = read_names(line, sort)?;
    line.expect(close)?;
    Ok(count)
}

// Reads the names of the variables and the arrow. The range variables may be left out.
pub fn read_head(line: &mut Line<'_>, map: &mut IndexingMap) -> Result<(), Unreadable> {
    line.expect(b'(')?;
    map.dims = read_names_before(line, Sort::Dimension, b')')?;
    if line.accept(b'[') {
        map.ranges = read_names_before(line, Sort::Range, b']')?;
    }
    if !line.rest().starts_with(b"->") {
        return Err(line.unreadable());
    }
    line.take(2);
    Ok(())
}
