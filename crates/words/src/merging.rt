// Two folded sums merged.
ghost use Rattle.std.specs.Prelude.{◌≡◌, ◌≤◌, length};
ghost use Rattle.words.specs.Words.{word_order, order_number};
ghost use Rattle.words.specs.Merged.{blended};
ghost use Rattle.words.specs.Promises.{Merges, Orders};

use super::{Made, numbers, places, writing};

// Two lists of words in lexicographic order: 0 the first comes first, 1 alike, 2 the second.
pub fn compare_words(a: &[i64], b: &[i64]) -> u8
    ensures { result ≡ order_number (word_order a.now b.now) }
{
    for i in 0..a.len().min(b.len()) {
        let x = a[i];
        let y = b[i];
        if x < y {
            return 0;
        }
        if y < x {
            return 2;
        }
    }
    if a.len() < b.len() {
        return 0;
    }
    if b.len() < a.len() {
        return 2;
    }
    1
}

// Which of two sums has the next term: 0 the first, 2 the second, 1 both or none.
pub fn order(w: &[i64], p: usize, n: usize, v: &[i64], i: usize, m: usize) -> u8
    requires { (p ≤ length w.now) × (i ≤ length v.now) }
    ensures { Orders w.now p n v.now i m result }
{
    if n == 0 {
        if m == 0 {
            return 1;
        }
        return 2;
    }
    if m == 0 {
        return 0;
    }
    let q = places::skip_atom(w, p);
    let j = places::skip_atom(v, i);
    compare_words(&w[p..q], &v[i..j])
}

// k times the first sum, and the second.
pub fn blend(
    k: i64,
    w: &[i64],
    p: usize,
    n: usize,
    v: &[i64],
    i: usize,
    m: usize,
    out: &mut [i64],
    at: usize,
) -> Made
    requires p_in_bounds { (p ≤ length w.now) × ((i ≤ length v.now) × (at ≤ length out.old)) }
    requires n_bound { (n ≤ 65536) × (m ≤ 65536) }
    ensures { Merges (blended k) w.now p n v.now i m out.old out.new at result.n result.at }
{
    let o = order(w, p, n, v, i, m);
    let q = places::skip_atom(w, p);
    let b = places::forward(w, q, 1);
    let j = places::skip_atom(v, i);
    let f = places::forward(v, j, 1);
    if o == 0 {
        let e = writing::copy(w, p, q, out, at);
        let g = writing::put(out, e, numbers::times(k, places::word(w, q)));
        let r = blend(k, w, b, n - 1, v, i, m, out, g);
        return Made {
            n: r.n + 1,
            at: r.at,
        };
    }
    if o == 2 {
        let e = writing::copy(v, i, f, out, at);
        let r = blend(k, w, p, n, v, f, m - 1, out, e);
        return Made {
            n: r.n + 1,
            at: r.at,
        };
    }
    if n == 0 {
        let e = writing::put(
            out,
            at,
            numbers::multiply_add(k, places::word(w, p), places::word(v, i)),
        );
        return Made { n: 0, at: e };
    }
    let s = numbers::multiply_add(k, places::word(w, q), places::word(v, j));
    if s == 0 {
        return blend(k, w, b, n - 1, v, f, m - 1, out, at);
    }
    let e = writing::copy(v, i, j, out, at);
    let g = writing::put(out, e, s);
    let r = blend(k, w, b, n - 1, v, f, m - 1, out, g);
    Made {
        n: r.n + 1,
        at: r.at,
    }
}
