// Printing an indexing map: its head and results on one line, then a line for each item of its domain.
#![tactic(auto)]

mod infix;
mod trees;

use indexing::IndexingMap;
use infix::put_expression;
use map_reading::{Sort, Variable};
use std::io;
use std::io::Write;
use trees::Trees;
use writing::{put, text};

// The most nodes of a map.
const MOST: usize = 256;

// Where nodes end that start at a place, at the last place at most.
fn end_of(start: usize, count: usize) -> usize {
    start.saturating_add(count).min(MOST)
}

// The names of the variables of a sort, with commas between them.
fn put_names<W: Write>(out: &mut W, sort: Sort, count: usize) -> io::Result<()> {
    for number in 0..count {
        if number > 0 {
            text(out, b", ")?;
        }
        let variable = Variable { sort, number };
        write!(out, "{variable}")?;
    }
    Ok(())
}

// The names of all variables, between brackets.
fn put_head<W: Write>(out: &mut W, map: &IndexingMap) -> io::Result<()> {
    put(out, b'(')?;
    put_names(out, Sort::Dimension, map.dims)?;
    put(out, b')')?;
    if map.ranges > 0 {
        put(out, b'[')?;
        put_names(out, Sort::Range, map.ranges)?;
        put(out, b']')?;
    }
    Ok(())
}

// The results, with commas between them. The answer is the place of the next node.
fn put_results<W: Write>(out: &mut W, map: &IndexingMap, trees: &Trees) -> io::Result<usize> {
    let mut start = 0;
    for (place, count) in map.result_nodes.iter().take(map.results).enumerate() {
        if place > 0 {
            text(out, b", ")?;
        }
        let end = end_of(start, *count);
        put_expression(out, trees, start, end)?;
        start = end;
    }
    Ok(start)
}

// The start of a line of the domain, behind the line before it.
fn start_line<W: Write>(out: &mut W, is_first: bool) -> io::Result<()> {
    if is_first {
        text(out, b",\ndomain:\n")
    } else {
        text(out, b",\n")
    }
}

// The word `in` and the two ends of an interval, between brackets.
fn put_interval<W: Write>(out: &mut W, lower: i64, upper: i64) -> io::Result<()> {
    text(out, b" in ")?;
    write!(out, "[{lower}, {upper}]")
}

// A line for each variable of a sort, with its bounds. The domain may start with them.
fn put_bounds<W: Write>(
    out: &mut W,
    map: &IndexingMap,
    sort: Sort,
    count: usize,
    is_start: bool,
) -> io::Result<()> {
    for number in 0..count {
        let variable = Variable { sort, number };
        let place = variable.place();
        start_line(out, is_start && number == 0)?;
        write!(out, "{variable}")?;
        if place < map.lower.len() {
            let lower = map.lower[place];
            let upper = map.upper[place];
            put_interval(out, lower, upper)?;
        }
    }
    Ok(())
}

// A line for each constraint, whose nodes start at a place. The domain may start with them.
fn put_constraints<W: Write>(
    out: &mut W,
    map: &IndexingMap,
    trees: &Trees,
    start: usize,
    is_start: bool,
) -> io::Result<()> {
    let mut start = start;
    for place in 0..map.constraints.min(map.constraint_nodes.len()) {
        let end = end_of(start, map.constraint_nodes[place]);
        let lower = map.constraint_lower[place];
        let upper = map.constraint_upper[place];
        start_line(out, is_start && place == 0)?;
        put_expression(out, trees, start, end)?;
        put_interval(out, lower, upper)?;
        start = end;
    }
    Ok(())
}

// Prints a map.
pub fn print_map<W: Write>(out: &mut W, map: &IndexingMap) -> io::Result<()> {
    let trees = Trees::of(map);
    put_head(out, map)?;
    text(out, b" -> (")?;
    let start = put_results(out, map, &trees)?;
    put(out, b')')?;
    put_bounds(out, map, Sort::Dimension, map.dims, true)?;
    put_bounds(out, map, Sort::Range, map.ranges, map.dims == 0)?;
    let is_start = map.dims == 0 && map.ranges == 0;
    put_constraints(out, map, &trees, start, is_start)
}
