// A folded sum made of one, term by term.
ghost use Rattle.folding.specs.Fold.{part_p, part_r};
ghost use Rattle.std.specs.Prelude.{◌<ℤ◌, ◌<◌, ◌≤◌, ℤ, pos, nat_abs, length};
ghost use Rattle.words.specs.Saturated.{scaled};
ghost use Rattle.words.specs.Promises.{Makes, Wraps};

use super::{Made, numbers, places, writing};

// z times a sum.
pub fn scale(w: &[i64], p: usize, n: usize, z: i64, out: &mut [i64], at: usize) -> Made
    requires { (p ≤ length w.now) × (at ≤ length out.old) }
    ensures { Makes (scaled z) w.now p n out.old out.new at result.n result.at }
{
    let q = places::skip_atom(w, p);
    if n == 0 {
        let e = writing::put(out, at, numbers::times(z, places::word(w, p)));
        return Made { n: 0, at: e };
    }
    let m = numbers::times(z, places::word(w, q));
    let b = places::forward(w, q, 1);
    if m == 0 {
        return scale(w, b, n - 1, z, out, at);
    }
    let e = writing::copy(w, p, q, out, at);
    let f = writing::put(out, e, m);
    let r = scale(w, b, n - 1, z, out, f);
    Made {
        n: r.n + 1,
        at: r.at,
    }
}

// The terms that g divides, divided by g, with the constant's floor.
pub fn part_p(w: &[i64], p: usize, n: usize, g: i64, out: &mut [i64], at: usize) -> Made
    requires { (p ≤ length w.now) × ((at ≤ length out.old) × (pos 0 <ℤ g)) }
    ensures { Makes (part_p (nat_abs g)) w.now p n out.old out.new at result.n result.at }
{
    let q = places::skip_atom(w, p);
    if n == 0 {
        let e = writing::put(out, at, integer::floor_div(places::word(w, p), g));
        return Made { n: 0, at: e };
    }
    let c = places::word(w, q);
    let b = places::forward(w, q, 1);
    let m = integer::floor_mod(c, g);
    if m != 0 {
        return part_p(w, b, n - 1, g, out, at);
    }
    let e = writing::copy(w, p, q, out, at);
    let f = writing::put(out, e, integer::floor_div(c, g));
    let r = part_p(w, b, n - 1, g, out, f);
    Made {
        n: r.n + 1,
        at: r.at,
    }
}

// The terms that g does not divide, with the constant's remainder.
pub fn part_r(w: &[i64], p: usize, n: usize, g: i64, out: &mut [i64], at: usize) -> Made
    requires { (p ≤ length w.now) × ((at ≤ length out.old) × (pos 0 <ℤ g)) }
    ensures { Makes (part_r (nat_abs g)) w.now p n out.old out.new at result.n result.at }
{
    let q = places::skip_atom(w, p);
    if n == 0 {
        let e = writing::put(out, at, integer::floor_mod(places::word(w, p), g));
        return Made { n: 0, at: e };
    }
    let c = places::word(w, q);
    let b = places::forward(w, q, 1);
    let m = integer::floor_mod(c, g);
    if m == 0 {
        return part_r(w, b, n - 1, g, out, at);
    }
    let e = writing::copy(w, p, q, out, at);
    let f = writing::put(out, e, c);
    let r = part_r(w, b, n - 1, g, out, f);
    Made {
        n: r.n + 1,
        at: r.at,
    }
}

// The atom of operation o and divisor d over the sum at p, whose range is lo .. hi.
pub fn wrap(
    o: usize,
    d: i64,
    lo: i64,
    hi: i64,
    w: &[i64],
    p: usize,
    n: usize,
    out: &mut [i64],
    at: usize,
) -> usize
    requires { (p ≤ length w.now) × ((at ≤ length out.old) × ((o < 8) × (n ≤ 65536))) }
    ensures { Wraps o d lo hi w.now p n out.old out.new at result }
{
    let a = writing::put(out, at, o as i64);
    let b = writing::put(out, a, d);
    let c = writing::put(out, b, n as i64);
    let q = places::skip(w, p, n);
    let f = places::forward(w, q, 1);
    let e = writing::copy(w, p, f, out, c);
    let g = writing::put(out, e, lo);
    let h = writing::put(out, g, hi);
    let i = writing::put(out, h, 1);
    writing::put(out, i, 0)
}
