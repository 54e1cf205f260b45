// What a node's kind and value say.
ghost use Rattle.std.specs.Prelude.{◌≡◌};
ghost use Rattle.expression.specs.Expression.{is_small};
ghost use Rattle.expression.specs.Node.{is_divisor, variable_node, one_node, node_of};

use super::{Leaf, Node, One};

// The most variables of a kind.
pub const MAX_VARIABLES: usize = 8;

// The most nodes of a map.
pub const MAX_NODES: usize = 256;

// The largest divisor.
const MAX_DIVISOR: i64 = 1 << 40;

// Whether a value lies within the limit of exact working, as a constant or a factor must.
pub fn is_small(value: i64) -> bool
    ensures { result ≡ is_small value }
{
    integer::magnitude(value) <= integer::LIMIT as u64
}

// Whether a value is a divisor.
fn is_divisor(value: i64) -> bool
    ensures { result ≡ is_divisor value }
{
    1 <= value && value <= MAX_DIVISOR
}

// The variable at a place, with dims dimensions and ranges range variables.
fn variable_node(dims: usize, ranges: usize, value: i64) -> Node
    ensures { result ≡ variable_node dims ranges value }
{
    let Ok(p) = usize::try_from(value) else {
        return Node::Bad;
    };
    if p < MAX_VARIABLES {
        if p < dims {
            Node::Leaf(Leaf::Dim(p))
        } else {
            Node::Bad
        }
    } else if p < 2 * MAX_VARIABLES && p - MAX_VARIABLES < ranges {
        Node::Leaf(Leaf::Range(p - MAX_VARIABLES))
    } else {
        Node::Bad
    }
}

// A node over one tree, by its kind.
fn one_node(kind: u8, value: i64) -> Node
    ensures { result ≡ one_node kind value }
{
    match kind {
        3 if is_small(value) => Node::One(One::Product(value)),
        4 if is_divisor(value) => Node::One(One::Floordiv(value)),
        5 if is_divisor(value) => Node::One(One::Mod(value)),
        _ => Node::Bad,
    }
}

// What a node's kind and value say, with dims dimensions and ranges range variables.
pub fn node_of(dims: usize, ranges: usize, kind: u8, value: i64) -> Node
    ensures { result ≡ node_of dims ranges kind value }
{
    match kind {
        0 => variable_node(dims, ranges, value),
        1 if is_small(value) => Node::Leaf(Leaf::Constant(value)),
        2 => Node::Sum,
        _ => one_node(kind, value),
    }
}
