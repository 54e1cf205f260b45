// The request `concatenate`: the dimension, the operand asked for, and the shapes of the operands.
use crate::ways::read_way;
use map_printing::print_map;
use operations::{MAX_OPERANDS, Operands};
use reading::{Line, Unreadable, put_at};
use shape::Shape;
use std::io::Write;
use writing::Failure;

// Reads the shapes, or none: the record has how many there are, and as many as it has places for.
fn read_operands(line: &mut Line<'_>) -> Result<Operands, Unreadable> {
    let shape = Shape {
        rank: 0,
        sizes: [0; 6],
    };
    let mut operands = Operands {
        count: 0,
        shapes: [shape; MAX_OPERANDS],
    };
    for place in 0..line.length() {
        if !line.is_next(b'[') {
            break;
        }
        put_at(&mut operands.shapes, place, line.shape()?);
        operands.count = place + 1;
    }
    Ok(operands)
}

pub fn answer_concatenate<W: Write>(mut line: Line<'_>, out: &mut W) -> Result<(), Failure> {
    let dimension = line.unsigned()?;
    let operand = line.unsigned()?;
    let operands = read_operands(&mut line)?;
    let way = read_way(&mut line)?;
    let map = operations::concatenate(way, operands, dimension, operand)?;
    print_map(out, &map)?;
    Ok(())
}
