// Printing an expression whose nodes stand in postfix order. Its leaves stand in the same order in the text. Before a leaf stand the
// openings of the trees that start with it, the outermost first, and behind an operation stands its ending.
use crate::trees::{Node, Role, Trees};
use map_reading::{Kind, Variable};
use std::io;
use std::io::Write;
use writing::{put, text};

// What stands before the first leaf of a tree: the operator of a sum before its right side, which takes the place of the
// minus of a product by -1, and a parenthesis.
fn put_opening<W: Write>(out: &mut W, node: Node) -> io::Result<()> {
    match node.role {
        Role::Right if node.is_negative() => text(out, b" - ")?,
        Role::Right => text(out, b" + ")?,
        _ => {}
    }
    if node.is_enclosed() {
        put(out, b'(')?;
    }
    if node.is_opposite() && node.role != Role::Right {
        put(out, b'-')?;
    }
    Ok(())
}

// The openings of the trees that start at a place and end before another.
fn put_openings<W: Write>(out: &mut W, trees: &Trees, start: usize, end: usize) -> io::Result<()> {
    for place in (start..end).rev() {
        let node = trees.node(place);
        if node.start == start {
            put_opening(out, node)?;
        }
    }
    Ok(())
}

// The number of a constant or of an operation. Behind a minus, and behind a plus, it has no sign.
fn put_number<W: Write>(out: &mut W, node: Node) -> io::Result<()> {
    if node.role == Role::Right {
        write!(out, "{}", node.value.unsigned_abs())
    } else {
        write!(out, "{}", node.value)
    }
}

fn put_leaf<W: Write>(out: &mut W, node: Node) -> io::Result<()> {
    if node.kind == Kind::Variable {
        let variable = Variable::at(node.value.unsigned_abs() as usize);
        write!(out, "{variable}")
    } else {
        put_number(out, node)
    }
}

// What stands behind the operand of an operation. A sum and a product by -1 have nothing there.
fn put_operation<W: Write>(out: &mut W, node: Node) -> io::Result<()> {
    if node.kind == Kind::Sum || node.is_opposite() {
        return Ok(());
    }
    match node.kind {
        Kind::Floordiv => text(out, b" floordiv ")?,
        Kind::Mod => text(out, b" mod ")?,
        _ => text(out, b" * ")?,
    }
    put_number(out, node)
}

// The part of the text of an expression that the node at a place brings. The expression ends before another.
fn put_part<W: Write>(out: &mut W, trees: &Trees, place: usize, end: usize) -> io::Result<()> {
    let node = trees.node(place);
    if node.is_leaf() {
        put_openings(out, trees, place, end)?;
        return put_leaf(out, node);
    }
    if trees.node(place.saturating_sub(1)).is_enclosed() {
        put(out, b')')?;
    }
    put_operation(out, node)
}

// The expression whose nodes stand from one place to before another.
pub fn put_expression<W: Write>(
    out: &mut W,
    trees: &Trees,
    start: usize,
    end: usize,
) -> io::Result<()> {
    for place in start..end {
        put_part(out, trees, place, end)?;
    }
    Ok(())
}
