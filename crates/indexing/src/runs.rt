// The runs of nodes that a record holds: where each stands, and whether it is a tree.
ghost use Rattle.std.specs.Prelude.{◌≡◌, ◌+◌, ◌<◌, min};
ghost use Rattle.expression.specs.Node.{max_nodes};
ghost use Rattle.indexing.specs.Map.{start_of, count_in, runs, good_tree};
ghost use Rattle.indexing.specs.Ready.{Counted, run_of};

use super::IndexingMap;

// The number of nodes of run i, the first n runs being results.
fn count_at<'a>(results: &'a [usize], constraints: &'a [usize], n: usize, i: usize) -> usize
    requires { Counted results.now constraints.now n (i + 1) }
    ensures { result ≡ count_in results.now constraints.now n i }
{
    if i < n {
        results[i]
    } else {
        constraints[i - n]
    }
}

// Where run i starts, or one more than the most nodes where that is past them.
pub fn start_of<'a>(results: &'a [usize], constraints: &'a [usize], n: usize, i: usize) -> usize
    requires { Counted results.now constraints.now n i }
    ensures { result ≡ min (start_of (count_in results.now constraints.now n) i) (max_nodes + 1) }
{
    let mut start: usize = 0;
    for j in 0..i {
        let count = count_at(results, constraints, n, j);
        start = start.saturating_add(count).min(expression::MAX_NODES + 1);
    }
    start
}

// Where run i stands and how many nodes it has, or that it is cut off.
pub fn run_of(m: IndexingMap, i: usize) -> Option<(usize, usize)>
    requires { i < runs m }
    ensures { result ≡ run_of m i }
{
    let n = m.results.min(super::MAX_RESULTS);
    let from = start_of(&m.result_nodes, &m.constraint_nodes, n, i);
    let count = count_at(&m.result_nodes, &m.constraint_nodes, n, i);
    if from <= expression::MAX_NODES && count <= expression::MAX_NODES - from {
        Some((from, count))
    } else {
        None
    }
}

// Whether run i is one tree, where it is not cut off.
pub fn good_tree(m: IndexingMap, i: usize) -> bool
    requires { i < runs m }
    ensures { result ≡ good_tree m i }
{
    match run_of(m, i) {
        Some((from, count)) => {
            expression::is_tree(&m.kinds, &m.values, m.dims, m.ranges, from, count)
        }
        None => true,
    }
}
