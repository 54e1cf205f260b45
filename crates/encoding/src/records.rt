// The record made of parts.
ghost use Rattle.std.specs.Prelude.{◌≡◌, ◌≤◌};
ghost use Rattle.expression.specs.Node.{max_variables};
ghost use Rattle.encoding.specs.Encode.{bounds_of, record_of, Bounded};

use indexing::IndexingMap;

// The bounds below the counts, and 0 past them.
fn kept_bounds(bounds: &[i64], dims: usize, ranges: usize) -> [i64; 24]
    requires { Bounded bounds.now dims ranges }
    ensures { result ≡ bounds_of dims ranges bounds.now }
{
    let mut out = [0i64; 24];
    let second = expression::MAX_VARIABLES;
    out[..dims].copy_from_slice(&bounds[..dims]);
    out[second..second + ranges].copy_from_slice(&bounds[second..second + ranges]);
    out
}

// The record of variables, and of results and constraints that stand in arrays.
pub fn record_of(
    dims: usize,
    ranges: usize,
    lower: [i64; 24],
    upper: [i64; 24],
    results: usize,
    counts: [usize; 8],
    constraints: usize,
    nodes: [usize; 32],
    lows: [i64; 32],
    highs: [i64; 32],
    kinds: [u8; 256],
    values: [i64; 256],
) -> IndexingMap
    requires { (dims ≤ max_variables) × (ranges ≤ max_variables) }
    ensures { result ≡ record_of dims ranges lower upper results counts constraints nodes lows highs kinds values }
{
    IndexingMap {
        dims,
        ranges,
        lower: kept_bounds(&lower, dims, ranges),
        upper: kept_bounds(&upper, dims, ranges),
        results,
        result_nodes: counts,
        constraints,
        constraint_nodes: nodes,
        constraint_lower: lows,
        constraint_upper: highs,
        kinds,
        values,
    }
}
