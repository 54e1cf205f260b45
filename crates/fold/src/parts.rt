// Runs of nodes folded: one run, the results, the constraints.
ghost use Rattle.std.specs.Prelude.{◌≡◌, ◌<◌, length};
ghost use Rattle.expression.specs.Expression.{span};
ghost use Rattle.indexing.specs.Map.{max_constraints, runs};
ghost use Rattle.indexing.specs.Ready.{Accepted};
ghost use Rattle.folding.specs.Map.{is_inside};
ghost use Rattle.encoding.specs.Encode.{Zeros, ConstraintZeros};
ghost use Rattle.encoding.specs.Written.{Room};
ghost use Rattle.fold.specs.Ready.{Space, FoldsRun, WritesRun, FoldsResults, Goes, FoldsConstraint, FoldsConstraints};

use super::{FoldedConstraint, Remaining};
use indexing::IndexingMap;
use tree_sum::TreeSum;

// The folded sum of run i, written to the front of the words.
fn run_sum(m: IndexingMap, i: usize, words: &mut [i64], scratch: &mut [i64]) -> TreeSum
    requires { Accepted m × (i < runs m) × Space m words.old scratch.old }
    ensures { FoldsRun m i words.new result }
{
    match indexing::inner::run_of(m, i) {
        Some((from, count)) => tree_sum::tree_sum(
            &m.kinds,
            &m.values,
            &m.lower,
            &m.upper,
            m.dims,
            m.ranges,
            from + count,
            words,
            0,
            scratch,
        ),
        None => TreeSum {
            small: false,
            begin: 0,
            terms: 0,
            end: 0,
        },
    }
}

// Folds run i and writes its nodes from a place on, unless a sum formed passes a limit; the answer is the place past them.
fn fold_run(
    m: IndexingMap,
    i: usize,
    words: &mut [i64],
    scratch: &mut [i64],
    kinds: &mut [u8],
    values: &mut [i64],
    at: usize,
) -> Option<usize>
    requires { Accepted m × (i < runs m) × Space m words.old scratch.old × Room kinds.old values.old at }
    ensures { WritesRun m i kinds.old kinds.new values.old values.new at result }
{
    let s = run_sum(m, i, words, scratch);
    if !s.small {
        return None;
    }
    let end = encoding::emit_sum(words, 0, s.terms, kinds, values, at);
    Some(end)
}

// Folds the results one after another and writes their nodes and the numbers of their nodes; the answer is the place past them.
pub fn fold_results(
    m: IndexingMap,
    words: &mut [i64],
    scratch: &mut [i64],
    counts: &mut [usize],
    kinds: &mut [u8],
    values: &mut [i64],
) -> Option<usize>
    requires { Accepted m × Space m words.old scratch.old × Zeros counts.old kinds.old values.old }
    ensures { FoldsResults m counts.new kinds.new values.new result }
{
    let mut at: usize = 0;
    for i in 0..m.results {
        let end = fold_run(m, i, words, scratch, kinds, values, at)?;
        counts[i] = end - at;
        at = end;
    }
    Some(at)
}

// Whether [lo, hi] lies inside [a, b].
fn is_inside(lo: i64, hi: i64, a: i64, b: i64) -> bool
    ensures { result ≡ is_inside (span lo hi) (span a b) }
{
    a <= lo && hi <= b
}

// Whether the range of the sum at the front of the words lies inside the interval of constraint k.
fn is_gone(m: IndexingMap, k: usize, words: &[i64], terms: usize) -> bool
    requires { k < max_constraints }
    ensures { Goes m k words.now terms result }
{
    let r = words::reckon(words, 0, terms, 0, 0);
    is_inside(r.lo, r.hi, m.constraint_lower[k], m.constraint_upper[k])
}

// Folds constraint k and writes its nodes from a place on, unless its range lies inside its interval.
fn fold_constraint(
    m: IndexingMap,
    k: usize,
    words: &mut [i64],
    scratch: &mut [i64],
    kinds: &mut [u8],
    values: &mut [i64],
    at: usize,
) -> FoldedConstraint
    requires { Accepted m × (k < m.constraints) × Space m words.old scratch.old × Room kinds.old values.old at }
    ensures { FoldsConstraint m k kinds.old kinds.new values.old values.new at result }
{
    let s = run_sum(m, m.results + k, words, scratch);
    if !s.small {
        return FoldedConstraint::Passed;
    }
    if is_gone(m, k, words, s.terms) {
        return FoldedConstraint::Gone;
    }
    let end = encoding::emit_sum(words, 0, s.terms, kinds, values, at);
    FoldedConstraint::Stays(end)
}

// Folds the constraints one after another and writes those that stay, with the numbers of their nodes and their ends.
pub fn fold_constraints(
    m: IndexingMap,
    words: &mut [i64],
    scratch: &mut [i64],
    counts: &mut [usize],
    lower: &mut [i64],
    upper: &mut [i64],
    kinds: &mut [u8],
    values: &mut [i64],
    start: usize,
) -> Option<Remaining>
    requires { Accepted m × Space m words.old scratch.old × ConstraintZeros counts.old lower.old upper.old × Room kinds.old values.old start }
    ensures { FoldsConstraints m counts.new lower.new upper.new kinds.old kinds.new values.old values.new start result }
{
    let mut at = start;
    let mut count: usize = 0;
    for k in 0..m.constraints {
        match fold_constraint(m, k, words, scratch, kinds, values, at) {
            FoldedConstraint::Passed => {
                return None;
            }
            FoldedConstraint::Gone => {}
            FoldedConstraint::Stays(end) => {
                counts[count] = end - at;
                lower[count] = m.constraint_lower[k];
                upper[count] = m.constraint_upper[k];
                count += 1;
                at = end;
            }
        }
    }
    Some(Remaining { at, count })
}
