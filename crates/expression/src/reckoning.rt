// The reckoned range of a tree.
ghost use Rattle.std.specs.Prelude.{◌≡◌, ◌≤◌, nat_abs, drop};
ghost use Rattle.integer.specs.Exact.{limit};
ghost use Rattle.expression.specs.Expression.{modulo, span, add_range, mul_range, op_range};
ghost use Rattle.expression.specs.Node.{nodes_at, Divisor, SoundOne};
ghost use Rattle.expression.specs.Machine.{step};
ghost use Rattle.expression.specs.Decode.{decode};
ghost use Rattle.expression.specs.Reckon.{reckon, one_range, range_alg, zip_ranges, range_in, out_of, Near};
ghost use Rattle.expression.specs.Ready.{Stacks, RangeStep, RangeRun};

use super::{Node, One, nodes, values};

// The range of a sum.
fn sum_range(alo: i64, ahi: i64, blo: i64, bhi: i64) -> Option<(i64, i64)>
    ensures { result ≡ reckon (add_range (span alo ahi) (span blo bhi)) }
{
    integer::exact_add(alo, blo).zip(integer::exact_add(ahi, bhi))
}

// The range of a product.
fn mul_range(z: i64, lo: i64, hi: i64) -> Option<(i64, i64)>
    ensures { result ≡ reckon (mul_range z (span lo hi)) }
{
    let x = integer::exact_mul(z, lo);
    let y = integer::exact_mul(z, hi);
    if z < 0 { y.zip(x) } else { x.zip(y) }
}

// The range of a remainder.
fn mod_range(c: i64, lo: i64, hi: i64) -> Option<(i64, i64)>
    requires { Divisor c × ((nat_abs lo ≤ limit) × (nat_abs hi ≤ limit)) }
    ensures { result ≡ reckon (op_range modulo (span lo hi) (nat_abs c)) }
{
    let p = integer::floor_div(lo, c);
    let q = integer::floor_div(hi, c);
    if p == q {
        Some((integer::floor_mod(lo, c), integer::floor_mod(hi, c)))
    } else {
        Some((0, c - 1))
    }
}

// The range of a node over one tree.
fn one_range(one: One, lo: i64, hi: i64) -> Option<(i64, i64)>
    requires { SoundOne one × ((nat_abs lo ≤ limit) × (nat_abs hi ≤ limit)) }
    ensures { result ≡ reckon (one_range one (span lo hi)) }
{
    match one {
        One::Product(z) => mul_range(z, lo, hi),
        One::Floordiv(c) => Some((integer::floor_div(lo, c), integer::floor_div(hi, c))),
        One::Mod(c) => mod_range(c, lo, hi),
    }
}

// One node of the walk that finds a tree's range: what stands from top on is the stack.
fn step_range(
    lower: &[i64],
    upper: &[i64],
    node: Node,
    los: &mut [i64; 256],
    his: &mut [i64; 256],
    top: usize,
) -> Option<usize>
    requires { RangeStep lower.now upper.now node los.old his.old top }
    ensures near { Near result top × Stacks los.new his.new }
    ensures his_after { out_of result los.new his.new ≡ step (range_alg lower.now upper.now) node (drop top (zip_ranges los.old his.old)) }
{
    match node {
        Node::Leaf(leaf) => {
            let at = top - 1;
            los[at] = values::leaf_value(lower, &lower[nodes::MAX_VARIABLES..], leaf);
            his[at] = values::leaf_value(upper, &upper[nodes::MAX_VARIABLES..], leaf);
            Some(at)
        }
        Node::One(one) => {
            let (lo, hi) = one_range(one, los[top], his[top])?;
            los[top] = lo;
            his[top] = hi;
            Some(top)
        }
        Node::Sum => {
            let at = top + 1;
            let (lo, hi) = sum_range(los[at], his[at], los[top], his[top])?;
            los[at] = lo;
            his[at] = hi;
            Some(at)
        }
        Node::Bad => None,
    }
}

// The range of the tree that stands from a place on, by the bounds of its variables.
pub fn range_of<'a>(
    kinds: &'a [u8],
    values: &'a [i64],
    lower: &'a [i64],
    upper: &'a [i64],
    dims: usize,
    ranges: usize,
    from: usize,
    count: usize,
) -> Option<(i64, i64)>
    requires { RangeRun kinds.now values.now lower.now upper.now dims ranges from count }
    ensures { result ≡ range_in lower.now upper.now (decode (nodes_at dims ranges kinds.now values.now from count)) }
{
    let mut los = [0i64; 256];
    let mut his = [0i64; 256];
    let mut top: usize = nodes::MAX_NODES;
    for i in from..from + count {
        let node = nodes::node_of(dims, ranges, kinds[i], values[i]);
        top = step_range(lower, upper, node, &mut los, &mut his, top)?;
    }
    Some((los[top], his[top]))
}
