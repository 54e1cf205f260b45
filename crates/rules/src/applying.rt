// One rule applied to a floordiv or mod of a sum that stands as words.
ghost use Rattle.std.specs.Prelude.{◌≡◌, ◌≤◌, pos, nat_abs, length, ◌<ℤ◌};
ghost use Rattle.expression.specs.Node.{max_divisor};
ghost use Rattle.folding.specs.Fold as F;
ghost use Rattle.rules.specs.Outcome.{Applies, max_terms};
ghost use Rattle.rules.specs.Rules.{larger_below, Nexts, Searches, Keeps, kept_divisor, Nests, Leaves, OpEnds, Shifts, new_op, Takes, Always, Trial};

use super::{Again, Applied};

// The largest divisor.
const MAX_DIVISOR: i64 = 1 << 40;

// The most terms that the functions on words take.
const MAX_TERMS: usize = 65536;

// The largest size of q * g where R keeps the limits: an end of R's range lies less than g away.
const MAX_MULTIPLE: u64 = (1 << 62) + (1 << 40);

// Where rule 2 fits: a limit is passed by some R tried; at g with q; or nowhere.
#[derive(Clone, Copy)]
pub enum Found {
    Passed,
    At(i64, i64),
    None,
}

// The two ends of a range.
#[derive(Clone, Copy)]
pub struct Ends {
    pub lo: i64,
    pub hi: i64,
}

// g where it is below `below` and above r, else r.
fn larger_below(below: u64, g: u64, r: u64) -> u64
    ensures { result ≡ larger_below below g r }
{
    if g < below && r < g { g } else { r }
}

// The largest gcd of c with a coefficient's size, of the n terms at p, that is below `below`; 1 where there is none.
fn next_divisor(w: &[i64], p: usize, n: usize, c: u64, below: u64) -> u64
    requires { p ≤ length w.now }
    ensures { Nexts w.now p n c below result }
{
    if n == 0 {
        return 1;
    }
    let q = words::skip_atom(w, p);
    let b = words::forward(w, q, 1);
    let r = next_divisor(w, b, n - 1, c, below);
    let g = integer::gcd(c, integer::magnitude(words::word(w, q)));
    larger_below(below, g, r)
}

// The first g at which rule 2 fits: c, then the gcds of c with the coefficients' sizes, largest first, while above 1.
fn fitting(w: &[i64], p: usize, n: usize, c: i64, out: &mut [i64]) -> Found
    requires { (p ≤ length w.now) × (pos 1 <ℤ c) × (nat_abs c ≤ max_divisor) }
    ensures { Searches w.now p n (nat_abs c) (length out.old) result }
{
    let size = integer::magnitude(c);
    let mut g = size;
    // A `while`: no counting loop, since the next g is found by a search.
    while 1 < g {
        let t = words::try_at(w, p, n, g as i64, out);
        let small = t.ok;
        let fits = t.fit;
        if !small {
            return Found::Passed;
        }
        if fits {
            return Found::At(g as i64, t.q);
        }
        g = next_divisor(w, p, n, size, g);
    }
    Found::None
}

// Whether no term of the sum at p, and no multiple of c in its constant, leaves by rule 3.
fn keeps_all(w: &[i64], p: usize, n: usize, c: i64) -> bool
    requires { (p ≤ length w.now) × (pos 0 <ℤ c) }
    ensures { Keeps w.now p n (nat_abs c) result }
{
    if n == 0 {
        return integer::floor_div(words::word(w, p), c) == 0;
    }
    let q = words::skip_atom(w, p);
    let m = integer::floor_mod(words::word(w, q), c);
    if m == 0 {
        return false;
    }
    let b = words::forward(w, q, 1);
    keeps_all(w, b, n - 1, c)
}

// m where it is a divisor, from 1 to 2^40, else 0.
fn kept_divisor(m: i64) -> i64
    ensures { result ≡ kept_divisor m }
{
    if m < 1 {
        return 0;
    }
    if MAX_DIVISOR < m {
        return 0;
    }
    m
}

// The divisor a * c of rule 4 for the sum at p, exactly one (X floordiv a); 0 where the rule does not fit.
fn nested_divisor(op: usize, w: &[i64], p: usize, n: usize, c: i64) -> i64
    requires { (p ≤ length w.now) × (pos 0 <ℤ c) }
    ensures { Nests op w.now p n (nat_abs c) result }
{
    if op != 3 {
        return 0;
    }
    if n != 1 {
        return 0;
    }
    if words::magnitude_at(w, p) != 3 {
        return 0;
    }
    let q = words::skip_atom(w, p);
    if words::word(w, q) != 1 {
        return 0;
    }
    let b = words::forward(w, q, 1);
    if words::word(w, b) != 0 {
        return 0;
    }
    let d = words::forward(w, p, 1);
    kept_divisor(words::times(words::word(w, d), c))
}

// The ends of (lo .. hi) floordiv or mod c.
fn op_ends(op: usize, lo: i64, hi: i64, c: i64) -> Ends
    requires { (pos 0 <ℤ c) × (nat_abs c ≤ max_divisor) }
    ensures { OpEnds op lo hi (nat_abs c) result.lo result.hi }
{
    let l = integer::floor_div(lo, c);
    let h = integer::floor_div(hi, c);
    if op == 3 {
        return Ends { lo: l, hi: h };
    }
    if l == h {
        let a = integer::floor_mod(lo, c);
        let b = integer::floor_mod(hi, c);
        return Ends { lo: a, hi: b };
    }
    Ends { lo: 0, hi: c - 1 }
}

// No rule fits: the floordiv or mod of the sum at p is an atom.
fn stays(op: usize, w: &[i64], p: usize, n: usize, c: i64, out: &mut [i64]) -> Applied
    requires { (p ≤ length w.now) × (n ≤ max_terms) × (op ≤ 7) × (pos 0 <ℤ c) × (nat_abs c ≤ max_divisor) }
    ensures { Takes Always (λ o t. F.stays o t (nat_abs c)) op w.now p n out.old out.new result }
{
    let r = words::reckon(w, p, n, 0, 0);
    let ends = op_ends(op, r.lo, r.hi, c);
    let end = words::wrap(op, c, ends.lo, ends.hi, w, p, n, out, 0);
    Applied::Sum(1, end)
}

// Rule 1: the sum at p, or 0.
fn rule1(op: usize, w: &[i64], p: usize, n: usize, out: &mut [i64]) -> Applied
    requires { (p ≤ length w.now) × (n ≤ max_terms) }
    ensures { Takes Always F.rule1 op w.now p n out.old out.new result }
{
    if op == 3 {
        let q = words::skip(w, p, n);
        let f = words::forward(w, q, 1);
        let end = words::copy(w, p, f, out, 0);
        return Applied::Sum(n, end);
    }
    let end = words::put(out, 0, 0);
    Applied::Sum(0, end)
}

// z more in the constant of the sum that ends at `end`.
fn shift_last(out: &mut [i64], end: usize, z: i64) -> usize
    requires { end ≤ length out.old }
    ensures { Shifts out.old out.new end z result }
{
    let b = words::back(end, 1);
    words::put(out, b, words::add(z, words::word(out, b)))
}

// The constant of R - q * g, where k is the constant of the whole sum; 0 where q * g is past any R that keeps the limits.
fn rest_constant(k: i64, q: i64, g: i64) -> i64
    requires { (pos 0 <ℤ g) × (nat_abs g ≤ max_divisor) }
    ensures { Leaves k q g result }
{
    let x = integer::magnitude(g);
    let y = integer::magnitude(q);
    if MAX_MULTIPLE / x < y {
        return 0;
    }
    integer::floor_mod(k, g) - q * g
}

// A new floordiv or mod.
fn new_op(
    factor: i64,
    divisor: i64,
    terms: usize,
    end: usize,
    rest_terms: usize,
    rest_end: usize,
) -> Applied
    ensures { result ≡ new_op factor divisor terms end rest_terms rest_end }
{
    Applied::Again(Again {
        factor,
        divisor,
        terms,
        end,
        rest_terms,
        rest_end,
    })
}

// Rule 2 at g, where R's range lies in [q * g, q * g + g - 1]. Passed where the words are no sum's.
fn rule2(
    op: usize,
    w: &[i64],
    p: usize,
    n: usize,
    c: i64,
    g: i64,
    q: i64,
    out: &mut [i64],
) -> Applied
    requires { (p ≤ length w.now) × (n ≤ max_terms) × (pos 0 <ℤ g) × (nat_abs g ≤ nat_abs c) × (pos 0 <ℤ c) × (nat_abs c ≤ max_divisor) }
    ensures { Takes (Trial (nat_abs g) q) (λ o t. F.rule2 o t (nat_abs c) (nat_abs g) q) op w.now p n out.old out.new result }
{
    let d = integer::floor_div(c, g);
    let m = words::part_p(w, p, n, g, out, 0);
    let e = shift_last(out, m.at, q);
    if op == 3 {
        let f = words::put(out, e, 0);
        return new_op(1, d, m.n, e, 0, f);
    }
    let r = words::part_r(w, p, n, g, out, e);
    if r.at <= e {
        return Applied::Passed;
    }
    let k = rest_constant(words::word(w, words::skip(w, p, n)), q, g);
    let f = words::put(out, words::back(r.at, 1), k);
    new_op(g, d, m.n, e, r.n, f)
}

// Rule 3: what c divides leaves. Passed where the words are no sum's.
fn rule3(op: usize, w: &[i64], p: usize, n: usize, c: i64, out: &mut [i64]) -> Applied
    requires { (p ≤ length w.now) × (n ≤ max_terms) × (pos 0 <ℤ c) × (nat_abs c ≤ max_divisor) }
    ensures { Takes Always (λ o t. F.rule3 o t (nat_abs c)) op w.now p n out.old out.new result }
{
    let r = words::part_r(w, p, n, c, out, 0);
    if op == 3 {
        let m = words::part_p(w, p, n, c, out, r.at);
        if m.at < r.at {
            return Applied::Passed;
        }
        return new_op(1, c, r.n, r.at, m.n, m.at);
    }
    let f = words::put(out, r.at, 0);
    new_op(1, c, r.n, r.at, 0, f)
}

// Rule 4: X floordiv (a * c) for exactly one (X floordiv a); else no rule fits. Passed where the words are no sum's.
fn rule4(op: usize, w: &[i64], p: usize, n: usize, c: i64, out: &mut [i64]) -> Applied
    requires { (p ≤ length w.now) × (n ≤ max_terms) × (op ≤ 7) × (pos 0 <ℤ c) × (nat_abs c ≤ max_divisor) × (length out.old ≤ max_terms) }
    ensures { Takes Always (λ o t. F.rule4 o t (nat_abs c)) op w.now p n out.old out.new result }
{
    let d = nested_divisor(op, w, p, n, c);
    if d == 0 {
        return stays(op, w, p, n, c, out);
    }
    let k = words::magnitude_at(w, words::forward(w, p, 2));
    if MAX_TERMS < k {
        return Applied::Passed;
    }
    let m = words::scale(w, words::forward(w, p, 3), k, 1, out, 0);
    let f = words::put(out, m.at, 0);
    new_op(1, d, m.n, m.at, 0, f)
}

// Rule 3 where something leaves, else rule 4.
fn rules34(op: usize, w: &[i64], p: usize, n: usize, c: i64, out: &mut [i64]) -> Applied
    requires { (p ≤ length w.now) × (n ≤ max_terms) × (op ≤ 7) × (pos 0 <ℤ c) × (nat_abs c ≤ max_divisor) × (length out.old ≤ max_terms) }
    ensures { Takes Always (λ o t. F.rules34 o t (nat_abs c)) op w.now p n out.old out.new result }
{
    if keeps_all(w, p, n, c) {
        return rule4(op, w, p, n, c, out);
    }
    rule3(op, w, p, n, c, out)
}

// The first rule that fits, applied to the sum of n terms at p, floordiv (op is 3) or mod (op is 4) c.
pub fn apply_rule(op: usize, w: &[i64], p: usize, n: usize, c: i64, out: &mut [i64]) -> Applied
    requires { (p ≤ length w.now) × (n ≤ max_terms) × (op ≤ 7) × (pos 0 <ℤ c) × (nat_abs c ≤ max_divisor) × (length out.old ≤ max_terms) }
    ensures { Applies op w.now p n c out.old out.new result }
{
    if c == 1 {
        return rule1(op, w, p, n, out);
    }
    match fitting(w, p, n, c, out) {
        Found::Passed => Applied::Passed,
        Found::At(g, q) => rule2(op, w, p, n, c, g, q, out),
        Found::None => rules34(op, w, p, n, c, out),
    }
}
