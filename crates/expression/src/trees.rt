// Whether a run of nodes is one tree.
ghost use Rattle.std.specs.Prelude.{◌≡◌, ◌+◌, ◌<◌, ◌≤◌, MatchOption};
ghost use Rattle.expression.specs.Node.{max_nodes, nodes_at};
ghost use Rattle.expression.specs.Ready.{RunIn};
ghost use Rattle.expression.specs.Decode.{decode, is_tree, depth_step};

use super::{Node, nodes};

// How many trees stand on the stack after a node, if it fits there.
fn step_depth(node: Node, depth: usize) -> Option<usize>
    requires { depth < max_nodes }
    ensures { MatchOption result (depth_step node depth ≡ 0) (λ d. (depth_step node depth ≡ d + 1) × (d ≤ depth + 1)) }
{
    match node {
        Node::Leaf(_) => Some(depth + 1),
        Node::One(_) => if depth == 0 { None } else { Some(depth) },
        Node::Sum => if depth < 2 { None } else { Some(depth - 1) },
        Node::Bad => None,
    }
}

// Whether the count nodes from a place on are one tree.
pub fn is_tree<'a>(
    kinds: &'a [u8],
    values: &'a [i64],
    dims: usize,
    ranges: usize,
    from: usize,
    count: usize,
) -> bool
    requires { RunIn kinds.now values.now from count }
    ensures { result ≡ is_tree (decode (nodes_at dims ranges kinds.now values.now from count)) }
{
    let mut depth: usize = 0;
    for i in from..from + count {
        let node = nodes::node_of(dims, ranges, kinds[i], values[i]);
        let Some(next) = step_depth(node, depth) else {
            return false;
        };
        depth = next;
    }
    depth == 1
}
