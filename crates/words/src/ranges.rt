// The reckoned range of a folded sum, and the limits.
ghost use Rattle.std.specs.Prelude.{◌<ℤ◌, ◌≤◌, ℤ, pos, nat_abs, length};
ghost use Rattle.words.specs.Promises.{Reckons, AddsTerm, AddsEnds, Tries};

use super::{Reckoned, Tried, making, numbers, places};

// lo + x .. hi + y, where c, x, y and these keep the limit.
pub fn reckon_two(c: i64, x: i64, y: i64, lo: i64, hi: i64) -> Reckoned
    ensures { AddsEnds c x y lo hi result.ok result.lo result.hi }
{
    let l = numbers::add(lo, x);
    let h = numbers::add(hi, y);
    if expression::is_small(c)
        && expression::is_small(x)
        && expression::is_small(y)
        && expression::is_small(l)
        && expression::is_small(h)
    {
        return Reckoned {
            ok: true,
            lo: l,
            hi: h,
        };
    }
    Reckoned {
        ok: false,
        lo: 0,
        hi: 0,
    }
}

// lo .. hi and c times a .. b.
pub fn reckon_term(c: i64, a: i64, b: i64, lo: i64, hi: i64) -> Reckoned
    ensures { AddsTerm c a b lo hi result.ok result.lo result.hi }
{
    if c < 0 {
        return reckon_two(c, numbers::times(c, b), numbers::times(c, a), lo, hi);
    }
    reckon_two(c, numbers::times(c, a), numbers::times(c, b), lo, hi)
}

// The range of the sum at p, added to lo .. hi, and whether it keeps the limits.
pub fn reckon(w: &[i64], p: usize, n: usize, lo: i64, hi: i64) -> Reckoned
    requires { p ≤ length w.now }
    ensures { Reckons w.now p n lo hi result.ok result.lo result.hi }
{
    if n == 0 {
        let k = places::word(w, p);
        return reckon_term(1, k, k, lo, hi);
    }
    let q = places::skip_atom(w, p);
    let b = places::forward(w, q, 1);
    let r = reckon_term(
        places::word(w, q),
        places::word(w, places::back(q, 2)),
        places::word(w, places::back(q, 1)),
        lo,
        hi,
    );
    let ok = r.ok;
    if !ok {
        return Reckoned {
            ok: false,
            lo: 0,
            hi: 0,
        };
    }
    reckon(w, b, n - 1, r.lo, r.hi)
}

// R at g: whether it keeps the limits, whether it lies between two neighbouring multiples of g, and which.
pub fn try_at(w: &[i64], p: usize, n: usize, g: i64, out: &mut [i64]) -> Tried
    requires { (p ≤ length w.now) × (pos 0 <ℤ g) }
    ensures { Tries w.now p n (nat_abs g) (length out.old) result.ok result.fit result.q }
{
    let m = making::part_r(w, p, n, g, out, 0);
    let k = m.n;
    let r = reckon(out, 0, k, 0, 0);
    let ok = r.ok;
    if !ok {
        return Tried {
            ok: false,
            fit: false,
            q: 0,
        };
    }
    let l = integer::floor_div(r.lo, g);
    let h = integer::floor_div(r.hi, g);
    if l == h {
        return Tried {
            ok: true,
            fit: true,
            q: l,
        };
    }
    Tried {
        ok: true,
        fit: false,
        q: l,
    }
}
