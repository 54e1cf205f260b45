// Two maps composed: the record made of both, its rules, and the answer.
ghost use Rattle.std.specs.Prelude.{◌≡◌, ◌+◌, ◌≤◌};
ghost use Rattle.indexing.specs.Map.{max_constraints};
ghost use Rattle.indexing.specs.Ready.{Formed};
ghost use Rattle.indexing.specs.Answers.{map_answer};
ghost use Rattle.compose.specs.ComposeMap.{compose_answer, formed_compose};
ghost use Rattle.compose.specs.Ready.{Composable, Joinable, constraint_count, joined_record, Builds, ranges_judged};

use super::{BuiltMap, bounds, parts};
use indexing::IndexingMap;
use refusal::Refusal;

// The record of the variables of both maps and of results and constraints that stand in arrays.
fn joined_record(
    f: IndexingMap,
    g: IndexingMap,
    counts: [usize; 8],
    nodes: [usize; 32],
    lower: [i64; 32],
    upper: [i64; 32],
    kinds: [u8; 256],
    values: [i64; 256],
) -> IndexingMap
    requires { Joinable f g × (constraint_count f g ≤ max_constraints) }
    ensures { result ≡ joined_record f g counts nodes lower upper kinds values }
{
    let first = bounds::joined_ends(&f.lower, &g.lower, f.ranges);
    let last = bounds::joined_ends(&f.upper, &g.upper, f.ranges);
    encoding::record_of(
        f.dims,
        f.ranges + g.ranges,
        first,
        last,
        g.results,
        counts,
        f.constraints + (f.results + g.constraints),
        nodes,
        lower,
        upper,
        kinds,
        values,
    )
}

// The composed map and its number of nodes, up to one past the most.
fn built_map(f: IndexingMap, g: IndexingMap) -> BuiltMap
    requires { Joinable f g × (constraint_count f g ≤ max_constraints) }
    ensures { Builds f g result }
{
    let mut counts = [0usize; 8];
    let mut kinds = [0u8; 256];
    let mut values = [0i64; 256];
    let start = parts::compose_results(f, g, &mut counts, &mut kinds, &mut values);
    let mut nodes = [0usize; 32];
    let mut lower = [0i64; 32];
    let mut upper = [0i64; 32];
    let end = parts::compose_constraints(
        f,
        g,
        &mut nodes,
        &mut lower,
        &mut upper,
        &mut kinds,
        &mut values,
        start,
    );
    let map = joined_record(f, g, counts, nodes, lower, upper, kinds, values);
    BuiltMap { nodes: end, map }
}

// The composed map, where 8 does not apply to either map or to it.
fn judged_ranges(f: IndexingMap, g: IndexingMap, map: IndexingMap) -> Result<IndexingMap, Refusal>
    requires { Formed f × Formed g × Formed map }
    ensures { result ≡ ranges_judged f g map }
{
    if !indexing::inner::good_ranges(f)
        || !indexing::inner::good_ranges(g)
        || !indexing::inner::good_ranges(map)
    {
        return Err(Refusal::WorkingLimit);
    }
    Ok(map)
}

// Two maps composed to which 2, 6 and 7 do not apply: 7 of the result, then 8.
fn compose_formed(f: IndexingMap, g: IndexingMap) -> Result<IndexingMap, Refusal>
    requires { Composable f g }
    ensures { result ≡ formed_compose f g }
{
    if expression::MAX_VARIABLES < f.ranges + g.ranges
        || indexing::MAX_CONSTRAINTS < f.constraints + (f.results + g.constraints)
    {
        return Err(Refusal::CountLimit);
    }
    let b = built_map(f, g);
    if expression::MAX_NODES < b.nodes {
        return Err(Refusal::CountLimit);
    }
    judged_ranges(f, g, b.map)
}

// f then g as one map, not folded: refused with 2, 6, 7 of either map or of the result, or 8 of either map or of the result.
pub fn compose(f: IndexingMap, g: IndexingMap) -> Result<IndexingMap, Refusal>
    ensures { map_answer result ≡ compose_answer f g }
{
    if !indexing::inner::good_parts(f) || !indexing::inner::good_parts(g) {
        return Err(Refusal::Attribute);
    }
    if f.results != g.dims {
        return Err(Refusal::WrongLength);
    }
    if !indexing::inner::good_counts(f) || !indexing::inner::good_counts(g) {
        return Err(Refusal::CountLimit);
    }
    compose_formed(f, g)
}
