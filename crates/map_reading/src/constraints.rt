// Reading a map's constraints: expressions with their intervals.
use crate::bounds::read_interval;
use crate::expressions::read_expression;
use crate::nodes::Nodes;
use crate::stack::Stack;
use indexing::IndexingMap;
use reading::{Line, Unreadable, put_at};

// Reads a constraint. Where the record has no place for it, it is left out.
fn read_constraint(
    line: &mut Line<'_>,
    map: &mut IndexingMap,
    nodes: &mut Nodes,
    stack: &mut Stack,
) -> Result<(), Unreadable> {
    let count = read_expression(line, nodes, stack)?;
    let interval = read_interval(line)?;
    let place = map.constraints;
    put_at(&mut map.constraint_nodes, place, count);
    put_at(&mut map.constraint_lower, place, interval.lower);
    put_at(&mut map.constraint_upper, place, interval.upper);
    map.constraints = place.saturating_add(1);
    Ok(())
}

// Reads one constraint or more, with commas between them.
pub fn read_constraints(
    line: &mut Line<'_>,
    map: &mut IndexingMap,
    nodes: &mut Nodes,
    stack: &mut Stack,
) -> Result<(), Unreadable> {
    for _ in 0..line.length() {
        read_constraint(line, map, nodes, stack)?;
        if !line.accept(b',') {
            break;
        }
    }
    Ok(())
}
