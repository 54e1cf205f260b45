// Nodes of a map written into arrays of kinds and values: a run as it is, and a run with f's results put for dimension variables.
ghost use Rattle.std.specs.Prelude.{◌<◌};
ghost use Rattle.expression.specs.Node.{nodes_at};
ghost use Rattle.expression.specs.Ready.{RunIn};
ghost use Rattle.indexing.specs.Map.{runs};
ghost use Rattle.indexing.specs.Ready.{Formed};
ghost use Rattle.encoding.specs.Postfix.{postfix};
ghost use Rattle.encoding.specs.Written.{Room, Written};
ghost use Rattle.encoding.specs.Trees.{expr_at};
ghost use Rattle.compose.specs.ComposeMap.{put_into};
ghost use Rattle.compose.specs.Splice.{splice_node, splice, result_nodes};
ghost use Rattle.compose.specs.Ready.{Joinable, Spliced, SpliceRun};

use expression::{Leaf, Node};
use indexing::IndexingMap;

// Writes the nodes of a run of a map, which has so many dimensions and range variables.
fn copy_nodes<'a>(
    source: &'a [u8],
    held: &'a [i64],
    dims: usize,
    ranges: usize,
    from: usize,
    count: usize,
    kinds: &mut [u8],
    values: &mut [i64],
    at: usize,
) -> usize
    requires { RunIn source.now held.now from count × Room kinds.old values.old at }
    ensures { Written (nodes_at dims ranges source.now held.now from count) kinds.old kinds.new values.old values.new at result }
{
    let mut place = at;
    for j in 0..count {
        let i = from + j;
        let node = expression::node_of(dims, ranges, source[i], held[i]);
        place = encoding::write_node(kinds, values, place, node);
    }
    place
}

// Writes run i of a map as it is.
pub fn copy_run(m: IndexingMap, i: usize, kinds: &mut [u8], values: &mut [i64], at: usize) -> usize
    requires { Formed m × (i < runs m) × Room kinds.old values.old at }
    ensures { Written (postfix (expr_at m i)) kinds.old kinds.new values.old values.new at result }
{
    match indexing::inner::run_of(m, i) {
        Some((from, count)) => copy_nodes(
            &m.kinds, &m.values, m.dims, m.ranges, from, count, kinds, values, at,
        ),
        None => at,
    }
}

// Writes what stands for a node of a map with so many range variables: f's result for a dimension variable, a range variable past f's.
fn put_spliced(
    f: IndexingMap,
    ranges: usize,
    node: Node,
    kinds: &mut [u8],
    values: &mut [i64],
    at: usize,
) -> usize
    requires { Spliced f ranges node × Room kinds.old values.old at }
    ensures { Written (splice_node (result_nodes f) f.ranges node) kinds.old kinds.new values.old values.new at result }
{
    match node {
        Node::Leaf(Leaf::Dim(n)) => copy_run(f, n, kinds, values, at),
        Node::Leaf(Leaf::Range(n)) => {
            let moved = Leaf::Range(f.ranges + n);
            encoding::write_node(kinds, values, at, Node::Leaf(moved))
        }
        Node::Leaf(Leaf::Constant(_)) | Node::One(_) | Node::Sum | Node::Bad => {
            encoding::write_node(kinds, values, at, node)
        }
    }
}

// Writes the nodes of a run of a map with f's results put for its dimension variables.
fn splice_nodes<'a>(
    f: IndexingMap,
    source: &'a [u8],
    held: &'a [i64],
    dims: usize,
    ranges: usize,
    from: usize,
    count: usize,
    kinds: &mut [u8],
    values: &mut [i64],
    at: usize,
) -> usize
    requires { SpliceRun f dims ranges × RunIn source.now held.now from count × Room kinds.old values.old at }
    ensures { Written (splice (result_nodes f) f.ranges (nodes_at dims ranges source.now held.now from count)) kinds.old kinds.new values.old values.new at result }
{
    let mut place = at;
    for j in 0..count {
        let i = from + j;
        let node = expression::node_of(dims, ranges, source[i], held[i]);
        place = put_spliced(f, ranges, node, kinds, values, place);
    }
    place
}

// Writes run i of g with f's results put for its dimension variables.
pub fn splice_run(
    g: IndexingMap,
    i: usize,
    f: IndexingMap,
    kinds: &mut [u8],
    values: &mut [i64],
    at: usize,
) -> usize
    requires { Joinable f g × (i < runs g) × Room kinds.old values.old at }
    ensures { Written (postfix (put_into f (expr_at g i))) kinds.old kinds.new values.old values.new at result }
{
    match indexing::inner::run_of(g, i) {
        Some((from, count)) => splice_nodes(
            f, &g.kinds, &g.values, g.dims, g.ranges, from, count, kinds, values, at,
        ),
        None => at,
    }
}
