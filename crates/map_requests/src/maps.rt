// The requests that answer a map: `fold`, the folded map, and `compose`, two maps after each other.
use map_printing::print_map;
use map_reading::read_map;
use reading::Line;
use std::io::Write;
use writing::Failure;

pub fn answer_fold<W: Write>(mut line: Line<'_>, out: &mut W) -> Result<(), Failure> {
    let map = read_map(&mut line)?;
    line.finish()?;
    let folded = fold::fold_map(map)?;
    print_map(out, &folded)?;
    Ok(())
}

// A semicolon stands before the second map.
pub fn answer_compose<W: Write>(mut line: Line<'_>, out: &mut W) -> Result<(), Failure> {
    let first = read_map(&mut line)?;
    line.expect(b';')?;
    let second = read_map(&mut line)?;
    line.finish()?;
    let composed = compose::compose(first, second)?;
    print_map(out, &composed)?;
    Ok(())
}
