// A map at a point: its domain, and the values of its results.
ghost use Rattle.std.specs.Prelude.{◌≡◌, ◌+◌, ◌<◌, ◌≤◌, length};
ghost use Rattle.indexing.specs.Map.{is_in, are_in, in_bounds, runs, value_at, all_hold, in_domain};
ghost use Rattle.indexing.specs.Ready.{Measured, Bounded};
ghost use Rattle.indexing.specs.Answers.{values_answer, valued_of, result_values};

use super::{IndexingMap, ResultValues, judging, runs};
use refusal::Refusal;

// Whether z lies in [a, b].
fn is_in(z: i64, a: i64, b: i64) -> bool
    ensures { result ≡ is_in z a b }
{
    a <= z && z <= b
}

// Whether the values lie in the intervals from a place on.
fn are_in<'a>(zs: &[i64], los: &'a [i64], his: &'a [i64], from: usize) -> bool
    requires { (from + length zs.now ≤ length los.now) × (from + length zs.now ≤ length his.now) }
    ensures { result ≡ are_in zs.now los.now his.now from (length zs.now) }
{
    for (k, z) in zs.iter().enumerate() {
        if !is_in(*z, los[from + k], his[from + k]) {
            return false;
        }
    }
    true
}

// Whether a point lies inside the bounds.
fn in_bounds(m: IndexingMap, ds: &[i64], ss: &[i64]) -> bool
    requires { Measured m ds.now ss.now }
    ensures { result ≡ in_bounds m ds.now ss.now }
{
    are_in(ds, &m.lower, &m.upper, 0) && are_in(ss, &m.lower, &m.upper, expression::MAX_VARIABLES)
}

// The value of run i at a point inside the bounds.
fn value_at(m: IndexingMap, ds: &[i64], ss: &[i64], i: usize) -> i64
    requires { Bounded m ds.now ss.now × (i < runs m) }
    ensures { result ≡ value_at m ds.now ss.now i }
{
    match runs::run_of(m, i) {
        Some((from, count)) => expression::value_of(&m.kinds, &m.values, ds, ss, from, count),
        None => 0,
    }
}

// Whether all constraints hold at a point inside the bounds.
fn all_hold(m: IndexingMap, ds: &[i64], ss: &[i64]) -> bool
    requires { Bounded m ds.now ss.now }
    ensures { result ≡ all_hold m ds.now ss.now }
{
    for k in 0..m.constraints {
        let z = value_at(m, ds, ss, m.results + k);
        if !is_in(z, m.constraint_lower[k], m.constraint_upper[k]) {
            return false;
        }
    }
    true
}

// Whether a point of the right length lies in the domain of an accepted map.
fn in_domain(m: IndexingMap, ds: &[i64], ss: &[i64]) -> bool
    requires { Measured m ds.now ss.now }
    ensures { result ≡ in_domain m ds.now ss.now }
{
    in_bounds(m, ds, ss) && all_hold(m, ds, ss)
}

// The values of the results of an accepted map at a point inside the bounds.
fn valued(m: IndexingMap, ds: &[i64], ss: &[i64]) -> ResultValues
    requires { Bounded m ds.now ss.now }
    ensures { result ≡ valued_of m ds.now ss.now }
{
    let mut values = [0i64; 8];
    for i in 0..m.results {
        values[i] = value_at(m, ds, ss, i);
    }
    ResultValues {
        results: m.results,
        values,
    }
}

// The values of a map's results at a point, dimension values and range values: refused with 2, 6, 7, 8 or 5.
pub fn evaluate(m: IndexingMap, ds: &[i64], ss: &[i64]) -> Result<ResultValues, Refusal>
    ensures { values_answer result ≡ result_values m ds.now ss.now }
{
    if !judging::good_parts(m) {
        return Err(Refusal::Attribute);
    }
    if ds.len() != m.dims || ss.len() != m.ranges {
        return Err(Refusal::WrongLength);
    }
    if !judging::good_counts(m) {
        return Err(Refusal::CountLimit);
    }
    if !judging::good_ranges(m) {
        return Err(Refusal::WorkingLimit);
    }
    if !in_domain(m, ds, ss) {
        return Err(Refusal::Outside);
    }
    Ok(valued(m, ds, ss))
}
