// A map folded: its bounds, its trees, and the record made of them.
ghost use Rattle.std.specs.Prelude.{◌≡◌, ◌≤◌};
ghost use Rattle.indexing.specs.Answers.{map_answer};
ghost use Rattle.indexing.specs.Ready.{Accepted};
ghost use Rattle.encoding.specs.Encode.{record_of};
ghost use Rattle.fold.specs.FoldMap.{accepted_fold, fold_answer};
ghost use Rattle.fold.specs.Ready.{Space, map_nodes, few_at_most};

use super::parts;
use indexing::IndexingMap;
use refusal::Refusal;

// The most nodes of a map that is folded in the smaller work space.
const FEW: usize = 64;

// The record of the variables of a map and of results and constraints that stand in arrays.
fn folded_record(
    m: IndexingMap,
    counts: [usize; 8],
    count: usize,
    nodes: [usize; 32],
    lower: [i64; 32],
    upper: [i64; 32],
    kinds: [u8; 256],
    values: [i64; 256],
) -> IndexingMap
    requires { Accepted m }
    ensures { result ≡ record_of m.dims m.ranges m.lower m.upper m.results counts count nodes lower upper kinds values }
{
    encoding::record_of(
        m.dims, m.ranges, m.lower, m.upper, m.results, counts, count, nodes, lower, upper, kinds,
        values,
    )
}

// An accepted map folded, with room for the words of its sums: refused with 8 or 7.
fn fold_in(m: IndexingMap, words: &mut [i64], scratch: &mut [i64]) -> Result<IndexingMap, Refusal>
    requires { Accepted m × Space m words.old scratch.old }
    ensures { result ≡ accepted_fold m }
{
    let mut counts = [0usize; 8];
    let mut kinds = [0u8; 256];
    let mut values = [0i64; 256];
    let Some(at) = parts::fold_results(m, words, scratch, &mut counts, &mut kinds, &mut values)
    else {
        return Err(Refusal::WorkingLimit);
    };
    let mut nodes = [0usize; 32];
    let mut lower = [0i64; 32];
    let mut upper = [0i64; 32];
    let Some(left) = parts::fold_constraints(
        m,
        words,
        scratch,
        &mut nodes,
        &mut lower,
        &mut upper,
        &mut kinds,
        &mut values,
        at,
    ) else {
        return Err(Refusal::WorkingLimit);
    };
    if expression::MAX_NODES < left.at {
        return Err(Refusal::CountLimit);
    }
    let map = folded_record(m, counts, left.count, nodes, lower, upper, kinds, values);
    Ok(map)
}

// The nodes of a map, all its trees together.
fn node_total(m: IndexingMap) -> usize
    requires { Accepted m }
    ensures { result ≡ map_nodes m }
{
    let n = m.results + m.constraints;
    if n == 0 {
        return 0;
    }
    match indexing::inner::run_of(m, n - 1) {
        Some((from, count)) => from + count,
        None => 0,
    }
}

// An accepted map of few nodes folded.
fn fold_few(m: IndexingMap) -> Result<IndexingMap, Refusal>
    requires { Accepted m × (map_nodes m ≤ few_at_most) }
    ensures { result ≡ accepted_fold m }
{
    let mut words = [0i64; 5824];
    let mut scratch = [0i64; 456];
    fold_in(m, &mut words, &mut scratch)
}

// An accepted map of any number of nodes folded.
fn fold_many(m: IndexingMap) -> Result<IndexingMap, Refusal>
    requires { Accepted m }
    ensures { result ≡ accepted_fold m }
{
    let mut words = [0i64; 23296];
    let mut scratch = [0i64; 1800];
    fold_in(m, &mut words, &mut scratch)
}

// An accepted map folded, in work space by its number of nodes: clearing the larger one takes longer than folding a small map.
fn fold_accepted(m: IndexingMap) -> Result<IndexingMap, Refusal>
    requires { Accepted m }
    ensures { result ≡ accepted_fold m }
{
    if node_total(m) <= FEW {
        return fold_few(m);
    }
    fold_many(m)
}

// A map folded: refused with 2, 7 or 8 of the map given, 8 of the working or 7 of the result.
pub fn fold_map(m: IndexingMap) -> Result<IndexingMap, Refusal>
    ensures { map_answer result ≡ fold_answer m }
{
    indexing::inner::judged(m)?;
    fold_accepted(m)
}
