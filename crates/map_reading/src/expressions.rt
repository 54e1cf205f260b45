// Reading an expression into nodes in postfix order. What waits for its operand stands on a stack.
use crate::nodes::{Kind, Nodes};
use crate::stack::{Stack, Waiting};
use crate::variables::read_variable;
use reading::{Line, Unreadable, count_digits};

// What is due next: an operand, what stands behind one, or nothing more.
#[derive(Clone, Copy, Debug, PartialEq, Eq)]
enum Due {
    Operand,
    Operator,
    Nothing,
}

// Whether the next token is the sign of an operand: a minus that no digit stands directly behind.
fn is_sign_next(line: &Line<'_>) -> bool {
    match line.rest() {
        [b'-', behind @ ..] => count_digits(behind) == 0,
        _ => false,
    }
}

// Reads a byte whose meaning waits for an operand. There is room for as many as a line has bytes.
fn read_waiting(
    line: &mut Line<'_>,
    stack: &mut Stack,
    waiting: Waiting,
) -> Result<Due, Unreadable> {
    if !stack.push(waiting) {
        return Err(line.unreadable());
    }
    line.take(1);
    Ok(Due::Operand)
}

// Reads a token of an operand: a parenthesis, a sign, a variable or a number.
fn read_operand(
    line: &mut Line<'_>,
    nodes: &mut Nodes,
    stack: &mut Stack,
) -> Result<Due, Unreadable> {
    if line.is_next(b'(') {
        return read_waiting(line, stack, Waiting::Parenthesis);
    }
    if is_sign_next(line) {
        return read_waiting(line, stack, Waiting::Sign);
    }
    match read_variable(line) {
        Some(variable) => nodes.put(Kind::Variable, (variable.place() % 256) as i64),
        None => nodes.put(Kind::Constant, line.number()?),
    }
    Ok(Due::Operator)
}

// The operation on the tree before it that the next token is.
fn operation_next(line: &Line<'_>) -> Option<Kind> {
    let mut ahead = *line;
    if ahead.accept(b'*') {
        return Some(Kind::Product);
    }
    match ahead.word() {
        b"floordiv" => Some(Kind::Floordiv),
        b"mod" => Some(Kind::Mod),
        _ => None,
    }
}

// Reads the word of an operation and the number behind it: that of a product may have a sign.
fn read_operation(line: &mut Line<'_>, nodes: &mut Nodes, kind: Kind) -> Result<Due, Unreadable> {
    let number = if line.accept(b'*') {
        line.number()?
    } else {
        line.word();
        line.digits()?
    };
    nodes.put(kind, number);
    Ok(Due::Operator)
}

// Puts the sum that waits for the product that was read. Behind a minus its right side is the opposite of that.
fn end_product(nodes: &mut Nodes, stack: &mut Stack) {
    if stack.accept(Waiting::Plus) {
        nodes.put(Kind::Sum, 0);
    } else if stack.accept(Waiting::Minus) {
        nodes.oppose();
        nodes.put(Kind::Sum, 0);
    }
}

// Reads a plus, a minus or the parenthesis that closes, or ends the expression before a token that is none of them.
fn read_operator(line: &mut Line<'_>, stack: &mut Stack) -> Result<Due, Unreadable> {
    if line.is_next(b'+') {
        return read_waiting(line, stack, Waiting::Plus);
    }
    if line.is_next(b'-') {
        return read_waiting(line, stack, Waiting::Minus);
    }
    if stack.pop().is_none() {
        return Ok(Due::Nothing);
    }
    line.expect(b')')?;
    Ok(Due::Operator)
}

// Reads what stands behind an operand: an operation and its number, or what follows a product.
fn read_behind(
    line: &mut Line<'_>,
    nodes: &mut Nodes,
    stack: &mut Stack,
) -> Result<Due, Unreadable> {
    for _ in 0..stack.take_signs() {
        nodes.oppose();
    }
    if let Some(kind) = operation_next(line) {
        return read_operation(line, nodes, kind);
    }
    end_product(nodes, stack);
    read_operator(line, stack)
}

// Reads an expression. The answer is how many nodes it has.
pub fn read_expression(
    line: &mut Line<'_>,
    nodes: &mut Nodes,
    stack: &mut Stack,
) -> Result<usize, Unreadable> {
    let start = nodes.place;
    let mut due = Due::Operand;
    // Each turn but the last takes a byte at least.
    for _ in 0..=line.length() {
        due = match due {
            Due::Operand => read_operand(line, nodes, stack)?,
            Due::Operator => read_behind(line, nodes, stack)?,
            Due::Nothing => break,
        };
    }
    Ok(nodes.place.saturating_sub(start))
}
