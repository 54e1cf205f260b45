// Reading a map's results: expressions with commas between them.
use crate::expressions::read_expression;
use crate::nodes::Nodes;
use crate::stack::Stack;
use indexing::IndexingMap;
use reading::{Line, Unreadable, put_at};

// The most results of a map.
const MOST: usize = 8;

// Reads a result. Past the first 8 its nodes take no place: they go past the last one.
fn read_result(
    line: &mut Line<'_>,
    map: &mut IndexingMap,
    nodes: &mut Nodes,
    stack: &mut Stack,
) -> Result<(), Unreadable> {
    let place = nodes.place;
    if map.results >= MOST {
        nodes.go_past();
    }
    let count = read_expression(line, nodes, stack)?;
    if map.results >= MOST {
        nodes.go_to(place);
    }
    put_at(&mut map.result_nodes, map.results, count);
    map.results = map.results.saturating_add(1);
    Ok(())
}

// Reads the results, or none, between parentheses.
pub fn read_results(
    line: &mut Line<'_>,
    map: &mut IndexingMap,
    nodes: &mut Nodes,
    stack: &mut Stack,
) -> Result<(), Unreadable> {
    line.expect(b'(')?;
    if line.accept(b')') {
        return Ok(());
    }
    for _ in 0..line.length() {
        read_result(line, map, nodes, stack)?;
        if !line.accept(b',') {
            break;
        }
    }
    line.expect(b')')
}
