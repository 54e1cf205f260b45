// The words of a folded sum: reading one, and going over terms and atoms.
ghost use Rattle.std.specs.Prelude.{◌≡◌, ◌-◌, ◌≤◌, pos, nat_abs, length, get_or};
ghost use Rattle.words.specs.Promises.{Forward, Skips, SkipsAtom};

// The word at p; 0 past the end.
pub fn word(w: &[i64], p: usize) -> i64
    ensures { result ≡ get_or w.now p (pos 0) }
{
    if p < w.len() { w[p] } else { 0 }
}

// The word at p as a natural number; 0 past the end.
pub fn magnitude_at(w: &[i64], p: usize) -> usize
    ensures { result ≡ nat_abs (get_or w.now p (pos 0)) }
{
    if p < w.len() {
        integer::magnitude(w[p]) as usize
    } else {
        0
    }
}

// k words on, and not past the end.
pub fn forward(w: &[i64], p: usize, k: usize) -> usize
    requires { p ≤ length w.now }
    ensures { Forward w.now p k result }
{
    if k < w.len() - p { p + k } else { w.len() }
}

// k places back, and not before 0.
pub fn back(q: usize, k: usize) -> usize
    ensures { result ≡ q - k }
{
    q.saturating_sub(k)
}

// Past n terms.
#[cycle(skip_skip_atom)]
pub fn skip(w: &[i64], p: usize, n: usize) -> usize
    requires { p ≤ length w.now }
    ensures { Skips w.now p n result }
{
    if n == 0 {
        return p;
    }
    if p >= w.len() {
        return p;
    }
    let q = skip_atom(w, p);
    let e = forward(w, q, 1);
    skip(w, e, n - 1)
}

// Past an atom.
#[cycle(skip_skip_atom)]
pub fn skip_atom(w: &[i64], p: usize) -> usize
    requires { p ≤ length w.now }
    ensures { SkipsAtom w.now p result }
{
    if p >= w.len() {
        return p;
    }
    let k = magnitude_at(w, p);
    if k < 3 {
        return forward(w, p, 4);
    }
    let h = forward(w, p, 2);
    let n = magnitude_at(w, h);
    let b = forward(w, p, 3);
    let q = skip(w, b, n);
    forward(w, q, 3)
}
