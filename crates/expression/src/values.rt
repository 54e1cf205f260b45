// The value of a tree at a point.
ghost use Rattle.std.specs.Prelude.{◌≡◌, [], ◌+◌, ◌<◌, ◌≤◌, pos, nat_abs, length, drop};
ghost use Rattle.integer.specs.Exact.{limit};
ghost use Rattle.expression.specs.Node.{max_nodes, nodes_at, SoundLeaf, SoundOne};
ghost use Rattle.expression.specs.Machine.{stack, step, walk, first};
ghost use Rattle.expression.specs.Value.{leaf_value, one_value, value_alg};
ghost use Rattle.expression.specs.Ready.{ValueStep, ValueRun};

use super::{Leaf, Node, One, nodes};

// A leaf's value, with the values of the dimensions and of the range variables.
pub fn leaf_value(ds: &[i64], ss: &[i64], leaf: Leaf) -> i64
    requires { SoundLeaf (length ds.now) (length ss.now) leaf }
    ensures { result ≡ leaf_value ds.now ss.now leaf }
{
    match leaf {
        Leaf::Dim(n) => ds[n],
        Leaf::Range(n) => ss[n],
        Leaf::Constant(z) => z,
    }
}

// The value of a node over one tree that has the value a.
fn one_value(one: One, a: i64) -> i64
    requires { SoundOne one × (nat_abs (one_value one a) ≤ limit) }
    ensures { result ≡ one_value one a }
{
    match one {
        One::Product(z) => z * a,
        One::Floordiv(z) => integer::floor_div(a, z),
        One::Mod(z) => integer::floor_mod(a, z),
    }
}

// One node of the walk that finds a tree's value: what stands from top on is the stack.
fn step_value(ds: &[i64], ss: &[i64], node: Node, items: &mut [i64; 256], top: usize) -> usize
    requires { ValueStep ds.now ss.now node items.old top }
    ensures upper_bound { (result ≤ max_nodes) × ((top ≤ result + 1) × (length items.new ≡ max_nodes)) }
    ensures after { stack (drop result items.new) ≡ step (value_alg ds.now ss.now) node (drop top items.old) }
{
    match node {
        Node::Leaf(leaf) => {
            let at = top - 1;
            items[at] = leaf_value(ds, ss, leaf);
            at
        }
        Node::One(one) => {
            items[top] = one_value(one, items[top]);
            top
        }
        Node::Sum => {
            let at = top + 1;
            items[at] += items[top];
            at
        }
        Node::Bad => top,
    }
}

// The value of the tree that stands from a place on, every node's value being within the limit.
pub fn value_of<'a>(
    kinds: &'a [u8],
    values: &'a [i64],
    ds: &[i64],
    ss: &[i64],
    from: usize,
    count: usize,
) -> i64
    requires { ValueRun kinds.now values.now ds.now ss.now from count }
    ensures { result ≡ first (pos 0) (walk (value_alg ds.now ss.now) (nodes_at (length ds.now) (length ss.now) kinds.now values.now from count) []) }
{
    let mut items = [0i64; 256];
    let mut top: usize = nodes::MAX_NODES;
    for i in from..from + count {
        let node = nodes::node_of(ds.len(), ss.len(), kinds[i], values[i]);
        top = step_value(ds, ss, node, &mut items, top);
    }
    items[top]
}
