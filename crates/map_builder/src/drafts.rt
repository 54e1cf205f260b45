// The parts of a map, one after another: variables, nodes, results and constraints.
ghost use Rattle.std.specs.Prelude.{◌≡◌, ◌<◌, pos};
ghost use Rattle.expression.specs.Node.{max_variables};
ghost use Rattle.indexing.specs.Map.{max_results, max_constraints};
ghost use Rattle.map_builder.specs.Draft.{empty_draft, add_dimension, add_range, push_node, end_result, end_constraint, BoundRoom, RangeRoom, NodeRoom};

use super::Draft;
use indexing::IndexingMap;

// A map with nothing in it.
pub fn empty() -> Draft
    ensures { result ≡ empty_draft }
{
    Draft {
        map: IndexingMap {
            dims: 0,
            ranges: 0,
            lower: [0i64; 24],
            upper: [0i64; 24],
            results: 0,
            result_nodes: [0usize; 8],
            constraints: 0,
            constraint_nodes: [0usize; 32],
            constraint_lower: [0i64; 32],
            constraint_upper: [0i64; 32],
            kinds: [0u8; 256],
            values: [0i64; 256],
        },
        at: 0,
        under: 0,
    }
}

// One more dimension.
fn add_dimension(d: Draft, low: i64, high: i64) -> Draft
    requires { d.map.dims < max_variables }
    ensures { result ≡ add_dimension d low high }
{
    let mut m = d.map;
    let k = m.dims;
    m.lower[k] = low;
    m.upper[k] = high;
    m.dims = k + 1;
    Draft {
        map: m,
        at: d.at,
        under: d.under,
    }
}

// One more range variable.
fn add_range(d: Draft, low: i64, high: i64) -> Draft
    requires { d.map.ranges < max_variables }
    ensures { result ≡ add_range d low high }
{
    let mut m = d.map;
    let k = m.ranges;
    m.lower[expression::MAX_VARIABLES + k] = low;
    m.upper[expression::MAX_VARIABLES + k] = high;
    m.ranges = k + 1;
    Draft {
        map: m,
        at: d.at,
        under: d.under,
    }
}

// One more node of the tree under way.
pub fn push_node(d: Draft, kind: u8, value: i64) -> Draft
    requires { NodeRoom d }
    ensures { result ≡ push_node d kind value }
{
    let mut m = d.map;
    let at = d.at;
    m.kinds[at] = kind;
    m.values[at] = value;
    Draft {
        map: m,
        at: at + 1,
        under: d.under + 1,
    }
}

// The tree under way is the next result.
pub fn end_result(d: Draft) -> Draft
    requires { d.map.results < max_results }
    ensures { result ≡ end_result d }
{
    let mut m = d.map;
    let k = m.results;
    m.result_nodes[k] = d.under;
    m.results = k + 1;
    Draft {
        map: m,
        at: d.at,
        under: 0,
    }
}

// The tree under way is the next constraint, from low to high.
pub fn end_constraint(d: Draft, low: i64, high: i64) -> Draft
    requires { d.map.constraints < max_constraints }
    ensures { result ≡ end_constraint d low high }
{
    let mut m = d.map;
    let k = m.constraints;
    m.constraint_nodes[k] = d.under;
    m.constraint_lower[k] = low;
    m.constraint_upper[k] = high;
    m.constraints = k + 1;
    Draft {
        map: m,
        at: d.at,
        under: 0,
    }
}

// A dimension from low to high.
pub fn add_bound(d: Draft, low: u64, high: u64) -> Draft
    requires { BoundRoom d low high }
    ensures { result ≡ add_dimension d (pos low) (pos high) }
{
    add_dimension(d, low as i64, high as i64)
}

// A range variable from 0 to high.
pub fn add_range_to(d: Draft, high: u64) -> Draft
    requires { RangeRoom d high }
    ensures { result ≡ add_range d (pos 0) (pos high) }
{
    add_range(d, 0, high as i64)
}
