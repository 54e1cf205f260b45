// Judging a map, and the reckoned ranges of its results.
ghost use Rattle.std.specs.Prelude.{◌≡◌, ◌+◌, ◌<◌, ◌≤◌, length};
ghost use Rattle.refusal.specs.Number.{verdict_answer};
ghost use Rattle.refusal.specs.Judge.{judge};
ghost use Rattle.indexing.specs.Map.{good_interval, good_intervals, runs, good_bounds, good_ends, good_trees, good_parts, good_counts, good_ranges, range_at};
ghost use Rattle.indexing.specs.Ready.{Formed, Accepted};
ghost use Rattle.indexing.specs.Answers.{map_rules, judged_map, ranges_answer, ranged_of, result_ranges};

use super::{IndexingMap, ResultRanges, runs};
use refusal::Refusal;

// The largest magnitude of a variable's bound.
const MAX_BOUND: u64 = 1 << 40;

// Whether two ends are in order, and each within most.
fn good_interval(a: i64, b: i64, most: u64) -> bool
    ensures { result ≡ good_interval most a b }
{
    a <= b && integer::magnitude(a) <= most && integer::magnitude(b) <= most
}

// Whether the count intervals from a place on are right.
fn good_intervals<'a>(los: &'a [i64], his: &'a [i64], from: usize, count: usize, most: u64) -> bool
    requires { (from + count ≤ length los.now) × (from + count ≤ length his.now) }
    ensures { result ≡ good_intervals most los.now his.now from count }
{
    for k in 0..count {
        if !good_interval(los[from + k], his[from + k], most) {
            return false;
        }
    }
    true
}

// Whether the bounds of the variables that the record holds are right.
fn good_bounds(m: IndexingMap) -> bool
    ensures { result ≡ good_bounds m }
{
    let dims = m.dims.min(expression::MAX_VARIABLES);
    let ranges = m.ranges.min(expression::MAX_VARIABLES);
    good_intervals(&m.lower, &m.upper, 0, dims, MAX_BOUND)
        && good_intervals(
            &m.lower,
            &m.upper,
            expression::MAX_VARIABLES,
            ranges,
            MAX_BOUND,
        )
}

// Whether the ends of the constraints that the record holds are right.
fn good_ends(m: IndexingMap) -> bool
    ensures { result ≡ good_ends m }
{
    let count = m.constraints.min(super::MAX_CONSTRAINTS);
    good_intervals(
        &m.constraint_lower,
        &m.constraint_upper,
        0,
        count,
        integer::LIMIT as u64,
    )
}

// The runs that the record holds.
fn runs_held(m: IndexingMap) -> usize
    ensures { result ≡ runs m }
{
    m.results.min(super::MAX_RESULTS) + m.constraints.min(super::MAX_CONSTRAINTS)
}

// Whether every run that is not cut off is one tree.
fn good_trees(m: IndexingMap) -> bool
    ensures { result ≡ good_trees m }
{
    for i in 0..runs_held(m) {
        if !runs::good_tree(m, i) {
            return false;
        }
    }
    true
}

// Number 2 does not apply.
pub fn good_parts(m: IndexingMap) -> bool
    ensures { result ≡ good_parts m }
{
    good_bounds(m) && good_ends(m) && good_trees(m)
}

// Number 7 does not apply.
pub fn good_counts(m: IndexingMap) -> bool
    ensures { result ≡ good_counts m }
{
    if expression::MAX_VARIABLES < m.dims
        || expression::MAX_VARIABLES < m.ranges
        || super::MAX_RESULTS < m.results
        || super::MAX_CONSTRAINTS < m.constraints
    {
        return false;
    }
    let nodes = runs::start_of(
        &m.result_nodes,
        &m.constraint_nodes,
        m.results,
        runs_held(m),
    );
    nodes <= expression::MAX_NODES
}

// The reckoned range of run i.
fn range_at(m: IndexingMap, i: usize) -> Option<(i64, i64)>
    requires { Formed m × (i < runs m) }
    ensures { result ≡ range_at m i }
{
    let (from, count) = runs::run_of(m, i)?;
    expression::range_of(
        &m.kinds, &m.values, &m.lower, &m.upper, m.dims, m.ranges, from, count,
    )
}

// Number 8 does not apply.
pub fn good_ranges(m: IndexingMap) -> bool
    requires { Formed m }
    ensures { result ≡ good_ranges m }
{
    for i in 0..runs_held(m) {
        if range_at(m, i).is_none() {
            return false;
        }
    }
    true
}

// The first rule that the map breaks, or none.
pub fn judged(m: IndexingMap) -> Result<(), Refusal>
    ensures { result ≡ judge (map_rules m) }
{
    if !good_parts(m) {
        return Err(Refusal::Attribute);
    }
    if !good_counts(m) {
        return Err(Refusal::CountLimit);
    }
    if !good_ranges(m) {
        return Err(Refusal::WorkingLimit);
    }
    Ok(())
}

// Whether a map is accepted: refused with 2, 7 or 8.
pub fn judge_map(m: IndexingMap) -> Result<(), Refusal>
    ensures { verdict_answer result ≡ judged_map m }
{
    judged(m)
}

// The ranges of the results of an accepted map.
fn ranged(m: IndexingMap) -> ResultRanges
    requires { Accepted m }
    ensures { result ≡ ranged_of m }
{
    let mut lower = [0i64; 8];
    let mut upper = [0i64; 8];
    for i in 0..m.results {
        let (low, high) = range_at(m, i).unwrap_or((0, 0));
        lower[i] = low;
        upper[i] = high;
    }
    ResultRanges {
        results: m.results,
        lower,
        upper,
    }
}

// The reckoned ranges of a map's results: refused with 2, 7 or 8.
pub fn result_ranges(m: IndexingMap) -> Result<ResultRanges, Refusal>
    ensures { ranges_answer result ≡ result_ranges m }
{
    judged(m)?;
    Ok(ranged(m))
}
