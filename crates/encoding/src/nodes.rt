// Nodes as kinds and values, and a node written.
ghost use Rattle.std.specs.Prelude.{◌≡◌, [], ◌∷◌, ◌≤◌, pos};
ghost use Rattle.expression.specs.Node.{max_variables};
ghost use Rattle.encoding.specs.Postfix.{place_from, kind_of, value_of};
ghost use Rattle.encoding.specs.Written.{Written};

use super::writing;
use expression::{Leaf, Node, One};

// The place of variable n of the kind that stands from a place on.
fn place_from(start: usize, n: usize) -> i64
    requires { start ≤ max_variables }
    ensures { result ≡ pos (place_from start n) }
{
    if n < expression::MAX_VARIABLES {
        (start + n) as i64
    } else {
        writing::NO_PLACE
    }
}

// The kind of a node: 0 variable, 1 constant, 2 sum, 3 product, 4 floordiv, 5 mod.
fn kind_of(node: Node) -> u8
    ensures { result ≡ kind_of node }
{
    match node {
        Node::Leaf(Leaf::Dim(_) | Leaf::Range(_)) => 0,
        Node::Leaf(Leaf::Constant(_)) => 1,
        Node::Sum => 2,
        Node::One(One::Product(_)) => 3,
        Node::One(One::Floordiv(_)) => 4,
        Node::One(One::Mod(_)) => 5,
        Node::Bad => 0,
    }
}

// The value of a node: a variable's place, a constant, a factor or a divisor; 0 for a sum.
fn value_of(node: Node) -> i64
    ensures { result ≡ value_of node }
{
    match node {
        Node::Leaf(Leaf::Dim(n)) => place_from(0, n),
        Node::Leaf(Leaf::Range(n)) => place_from(expression::MAX_VARIABLES, n),
        Node::Leaf(Leaf::Constant(z)) => z,
        Node::One(One::Product(z) | One::Floordiv(z) | One::Mod(z)) => z,
        Node::Sum => 0,
        Node::Bad => writing::NO_PLACE,
    }
}

// Writes a node, if there is room, and counts it.
pub fn write_node(kinds: &mut [u8], values: &mut [i64], at: usize, node: Node) -> usize
    ensures { Written (node ∷ []) kinds.old kinds.new values.old values.new at result }
{
    writing::put_node(kinds, values, at, kind_of(node), value_of(node))
}
