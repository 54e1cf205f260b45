// The folded sum of one tree, from its nodes in postfix order. Inner functions of the library.
#![tactic(auto)]

ghost use Rattle.std.specs.Prelude.{◌≡◌, [], ◌∷◌, ◌<◌, ◌≤◌, pos, length};
ghost use Rattle.expression.specs.Node.{max_variables, Divisor, SoundLeaf, SoundOne};
ghost use Rattle.expression.specs.Value.{bounds};
ghost use Rattle.expression.specs.Decode.{leaf_expr};
ghost use Rattle.folding.specs.Fold.{fold_sum};
ghost use Rattle.words.specs.Promises.{Puts};
ghost use Rattle.rules.specs.Outcome.{max_terms};
ghost use Rattle.tree_sum.specs.Trees.{no_sum, Rooms, Inside, Keeps, Written, ScalesSum, DividesSum, AddsSums, FoldsLeaf, FoldsOne, FoldsSum, FoldsTree, NodesIn};

use expression::{Leaf, Node, One};
use words::Made;

// The most terms that the functions on words take.
const MAX_TERMS: usize = 65536;

// More than the rules can take for any sum of so many words.
const FUEL: u64 = 1 << 52;

// The folded sum of a tree: whether every sum formed keeps the limits, the place of the tree's first node, and the sum's number of terms and
// its end.
#[derive(Clone, Copy)]
pub struct TreeSum {
    pub small: bool,
    pub begin: usize,
    pub terms: usize,
    pub end: usize,
}

// No sum: a limit is passed, or there is no tree.
fn no_sum(begin: usize, p: usize) -> TreeSum
    ensures { result ≡ no_sum begin p }
{
    TreeSum {
        small: false,
        begin: begin,
        terms: 0,
        end: p,
    }
}

// Moves the sum of n terms that stands in y up to end to place p, if it keeps the limits.
fn kept_sum(y: &[i64], n: usize, end: usize, begin: usize, x: &mut [i64], p: usize) -> TreeSum
    requires { (end ≤ length y.now) × (p ≤ length x.old) × (n ≤ max_terms) }
    ensures { Keeps y.now n end begin x.old x.new p result }
{
    let r = words::reckon(y, 0, n, 0, 0);
    let ok = r.ok;
    if !ok {
        return no_sum(begin, p);
    }
    let e = words::copy(y, 0, end, x, p);
    TreeSum {
        small: true,
        begin: begin,
        terms: n,
        end: e,
    }
}

// Writes the variable of a kind (dimension 0, range variable 1) and a number, once: its words, with its bounds.
fn put_variable(kind: usize, number: usize, lo: i64, hi: i64, y: &mut [i64]) -> Made
    requires { (kind ≤ 2) × (number < max_variables) }
    ensures { (result.n ≡ 1) × Puts y.old y.new 0 result.at (pos kind ∷ pos number ∷ lo ∷ hi ∷ pos 1 ∷ pos 0 ∷ []) }
{
    let a = words::put(y, 0, kind as i64);
    let b = words::put(y, a, number as i64);
    let c = words::put(y, b, lo);
    let d = words::put(y, c, hi);
    let e = words::put(y, d, 1);
    Made {
        n: 1,
        at: words::put(y, e, 0),
    }
}

// Writes the sum of a leaf.
fn put_leaf(leaf: Leaf, lower: &[i64], upper: &[i64], y: &mut [i64]) -> Made
    requires { SoundLeaf max_variables max_variables leaf }
    ensures { Written (bounds lower.now upper.now) (fold_sum (bounds lower.now upper.now) (leaf_expr leaf)) y.old y.new result.n result.at }
{
    match leaf {
        Leaf::Dim(n) => {
            let lo = words::word(lower, n);
            let hi = words::word(upper, n);
            return put_variable(0, n, lo, hi, y);
        }
        Leaf::Range(n) => {
            let k = expression::MAX_VARIABLES + n;
            let lo = words::word(lower, k);
            let hi = words::word(upper, k);
            return put_variable(1, n, lo, hi, y);
        }
        Leaf::Constant(z) => {
            let e = words::put(y, 0, z);
            return Made { n: 0, at: e };
        }
    }
}

// The folded sum of a leaf at a place.
fn leaf_sum(
    leaf: Leaf,
    lower: &[i64],
    upper: &[i64],
    at: usize,
    x: &mut [i64],
    p: usize,
    y: &mut [i64],
) -> TreeSum
    requires { SoundLeaf max_variables max_variables leaf × Rooms x.old y.old p }
    ensures { FoldsLeaf (bounds lower.now upper.now) leaf at x.old x.new y.old y.new p result }
{
    let m = put_leaf(leaf, lower, upper, y);
    kept_sum(y, m.n, m.at, at, x, p)
}

// A sum times a factor.
fn scaled_sum(z: i64, a: TreeSum, x: &mut [i64], p: usize, y: &mut [i64]) -> TreeSum
    requires { Inside x.old p a × Rooms x.old y.old p }
    ensures { ScalesSum z a x.old x.new y.old y.new p result }
{
    let m = words::scale(x, p, a.terms, z, y, 0);
    kept_sum(y, m.n, m.at, a.begin, x, p)
}

// A sum, floordiv (op is 3) or mod (op is 4) c.
fn divided_sum(op: usize, c: i64, a: TreeSum, x: &mut [i64], p: usize, y: &mut [i64]) -> TreeSum
    requires { (op ≤ 7) × Divisor c × Inside x.old p a × Rooms x.old y.old p }
    ensures { DividesSum op c a x.old x.new y.old y.new p result }
{
    let r = rules::apply_rules(op, x, p, a.terms, c, FUEL, y);
    TreeSum {
        small: r.small,
        begin: a.begin,
        terms: r.terms,
        end: r.end,
    }
}

// The folded sum of a node over the tree whose folded sum is a.
fn one_sum(one: One, a: TreeSum, x: &mut [i64], p: usize, y: &mut [i64]) -> TreeSum
    requires { SoundOne one × Inside x.old p a × Rooms x.old y.old p }
    ensures { FoldsOne one a x.old x.new y.old y.new p result }
{
    let small = a.small;
    if !small {
        return a;
    }
    match one {
        One::Product(z) => {
            return scaled_sum(z, a, x, p, y);
        }
        One::Floordiv(c) => {
            return divided_sum(3, c, a, x, p, y);
        }
        One::Mod(c) => {
            return divided_sum(4, c, a, x, p, y);
        }
    }
}

// Two sums added.
fn added_sum(b: TreeSum, a: TreeSum, x: &mut [i64], p: usize, y: &mut [i64]) -> TreeSum
    requires { Inside x.old p b × Inside x.old b.end a × Rooms x.old y.old p }
    ensures { AddsSums b a x.old x.new y.old y.new p result }
{
    let m = words::blend(1, x, b.end, a.terms, x, p, b.terms, y, 0);
    if MAX_TERMS < m.n {
        return no_sum(a.begin, p);
    }
    kept_sum(y, m.n, m.at, a.begin, x, p)
}

// The folded sum of a sum of two trees: the second's stands at p, the first's behind it.
fn joined_sum(b: TreeSum, a: TreeSum, x: &mut [i64], p: usize, y: &mut [i64]) -> TreeSum
    requires { Inside x.old p b × Inside x.old b.end a × Rooms x.old y.old p }
    ensures { FoldsSum b a x.old x.new y.old y.new p result }
{
    if b.small {
        if a.small {
            return added_sum(b, a, x, p, y);
        }
        return no_sum(a.begin, p);
    }
    no_sum(a.begin, p)
}

// The folded sum of the tree whose last node is the one before place i, written from p on.
pub fn tree_sum(
    kinds: &[u8],
    values: &[i64],
    lower: &[i64],
    upper: &[i64],
    dims: usize,
    ranges: usize,
    i: usize,
    x: &mut [i64],
    p: usize,
    y: &mut [i64],
) -> TreeSum
    requires { NodesIn kinds.now values.now i × Rooms x.old y.old p }
    ensures { FoldsTree dims ranges kinds.now values.now (bounds lower.now upper.now) i x.old x.new y.old y.new p result }
{
    if i == 0 {
        return no_sum(0, p);
    }
    let k = i - 1;
    let node = expression::node_of(dims, ranges, kinds[k], values[k]);
    match node {
        Node::Leaf(leaf) => {
            return leaf_sum(leaf, lower, upper, k, x, p, y);
        }
        Node::One(one) => {
            let a = tree_sum(kinds, values, lower, upper, dims, ranges, k, x, p, y);
            return one_sum(one, a, x, p, y);
        }
        Node::Sum => {
            let b = tree_sum(kinds, values, lower, upper, dims, ranges, k, x, p, y);
            let e = b.end;
            let a = tree_sum(kinds, values, lower, upper, dims, ranges, b.begin, x, e, y);
            return joined_sum(b, a, x, p, y);
        }
        Node::Bad => {
            return no_sum(0, p);
        }
    }
}
