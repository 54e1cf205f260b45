// Reading intervals, and the bounds of a map's variables.
use crate::variables::{Sort, Variable, expect_variable};
use indexing::IndexingMap;
use reading::{Line, Unreadable, put_at};

// The ends of an interval.
#[derive(Clone, Copy, Debug)]
pub struct Interval {
    pub lower: i64,
    pub upper: i64,
}

// Reads the word `in` and an interval.
pub fn read_interval(line: &mut Line<'_>) -> Result<Interval, Unreadable> {
    line.expect_word(b"in")?;
    line.expect(b'[')?;
    let lower = line.number()?;
    line.expect(b',')?;
    let upper = line.number()?;
    line.expect(b']')?;
    Ok(Interval { lower, upper })
}

// Reads the bounds of a variable. Where the record has no place for them they are left out.
fn read_bound(
    line: &mut Line<'_>,
    map: &mut IndexingMap,
    variable: Variable,
) -> Result<(), Unreadable> {
    expect_variable(line, variable)?;
    let interval = read_interval(line)?;
    let place = variable.place();
    put_at(&mut map.lower, place, interval.lower);
    put_at(&mut map.upper, place, interval.upper);
    Ok(())
}

// Reads the bounds of the variables that the map's head names, with commas between them.
pub fn read_bounds(line: &mut Line<'_>, map: &mut IndexingMap) -> Result<(), Unreadable> {
    for number in 0..map.dims {
        if number > 0 {
            line.expect(b',')?;
        }
        let sort = Sort::Dimension;
        read_bound(line, map, Variable { sort, number })?;
    }
    for number in 0..map.ranges {
        if map.dims > 0 || number > 0 {
            line.expect(b',')?;
        }
        let sort = Sort::Range;
        read_bound(line, map, Variable { sort, number })?;
    }
    Ok(())
}
