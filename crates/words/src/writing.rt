// Words written one after another, as far as there is room.
ghost use Rattle.std.specs.Prelude.{[], ◌∷◌, ◌-◌, ◌≤◌, length, drop, take};
ghost use Rattle.words.specs.Promises.{Puts};

// Writes v at `at`, if there is room.
pub fn put(out: &mut [i64], at: usize, v: i64) -> usize
    requires { at ≤ length out.old }
    ensures { Puts out.old out.new at result (v ∷ []) }
{
    if at < out.len() {
        out[at] = v;
        at + 1
    } else {
        at
    }
}

// Writes the words p .. q of w at `at`, as far as there is room.
pub fn copy(w: &[i64], p: usize, q: usize, out: &mut [i64], at: usize) -> usize
    requires { (p ≤ q) × ((q ≤ length w.now) × (at ≤ length out.old)) }
    ensures { Puts out.old out.new at result (take (q - p) (drop p w.now)) }
{
    let mut e = at;
    for v in &w[p..q] {
        e = put(out, e, *v);
    }
    e
}
