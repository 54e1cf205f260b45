// Reading a map into a record. Its counts are those of the text; what the record has no place for is left out.
use crate::bounds::read_bounds;
use crate::constraints::read_constraints;
use crate::head::read_head;
use crate::nodes::Nodes;
use crate::results::read_results;
use crate::stack::Stack;
use indexing::IndexingMap;
use reading::{Line, Unreadable};

// The map without variables and results.
fn empty_map() -> IndexingMap {
    IndexingMap {
        dims: 0,
        ranges: 0,
        lower: [0; 24],
        upper: [0; 24],
        results: 0,
        result_nodes: [0; 8],
        constraints: 0,
        constraint_nodes: [0; 32],
        constraint_lower: [0; 32],
        constraint_upper: [0; 32],
        kinds: [0; 256],
        values: [0; 256],
    }
}

// Whether a constraint follows, where it is the domain's first item: there is none where the map ends.
fn is_constraint_next(line: &Line<'_>) -> bool {
    line.has_more() && !line.is_next(b';') && !line.is_word_next(b"at")
}

// Reads the domain, which a map without variables may leave out.
fn read_domain(
    line: &mut Line<'_>,
    map: &mut IndexingMap,
    nodes: &mut Nodes,
    stack: &mut Stack,
) -> Result<(), Unreadable> {
    let has_variables = map.dims > 0 || map.ranges > 0;
    if !has_variables && !line.is_next(b',') {
        return Ok(());
    }
    line.expect(b',')?;
    line.expect_word(b"domain")?;
    line.expect(b':')?;
    read_bounds(line, map)?;
    let has_constraints = if has_variables {
        line.accept(b',')
    } else {
        is_constraint_next(line)
    };
    if has_constraints {
        read_constraints(line, map, nodes, stack)?;
    }
    Ok(())
}

// Reads a map up to the first token that cannot go on with it.
pub fn read_map(line: &mut Line<'_>) -> Result<IndexingMap, Unreadable> {
    let mut map = empty_map();
    let mut nodes = Nodes::new();
    let mut stack = Stack::new();
    read_head(line, &mut map)?;
    read_results(line, &mut map, &mut nodes, &mut stack)?;
    read_domain(line, &mut map, &mut nodes, &mut stack)?;
    map.kinds = nodes.kinds;
    map.values = nodes.values;
    Ok(map)
}
