// A folded sum that stands as words, written as the nodes of its tree.
ghost use Rattle.encoding.specs.Written.{Ready, EmitsAtom, EmitsTerms, EmitsSum};

// The n terms and the constant at p, which stand alone or are added to what stands before them.
#[cycle(emit_atom_emit_terms)]
fn emit_terms(
    w: &[i64],
    p: usize,
    n: usize,
    alone: bool,
    kinds: &mut [u8],
    values: &mut [i64],
    at: usize,
) -> usize
    requires { Ready w.now p kinds.old values.old at }
    ensures { EmitsTerms alone w.now p n kinds.old kinds.new values.old values.new at result }
{
    if p >= w.len() {
        return at;
    }
    if n == 0 {
        return super::writing::put_constant(kinds, values, at, words::word(w, p), alone);
    }
    let end = emit_atom(w, p, kinds, values, at);
    let q = words::skip_atom(w, p);
    let e = super::writing::put_coefficient(kinds, values, end, words::word(w, q), alone);
    let next = words::forward(w, q, 1);
    emit_terms(w, next, n - 1, false, kinds, values, e)
}

// The atom at p.
#[cycle(emit_atom_emit_terms)]
fn emit_atom(w: &[i64], p: usize, kinds: &mut [u8], values: &mut [i64], at: usize) -> usize
    requires { Ready w.now p kinds.old values.old at }
    ensures { EmitsAtom w.now p kinds.old kinds.new values.old values.new at result }
{
    if p >= w.len() {
        return at;
    }
    let kind = words::magnitude_at(w, p);
    let second = words::forward(w, p, 1);
    if kind < 3 {
        let place = super::writing::place_of(kind, words::magnitude_at(w, second));
        return super::writing::put_node(kinds, values, at, 0, place);
    }
    let third = words::forward(w, p, 2);
    let inner = words::forward(w, p, 3);
    let end = emit_terms(
        w,
        inner,
        words::magnitude_at(w, third),
        true,
        kinds,
        values,
        at,
    );
    super::writing::put_node(
        kinds,
        values,
        end,
        super::writing::op_kind(kind),
        words::word(w, second),
    )
}

// Writes the nodes of the sum with n terms at p from place `at` on, as far as there is room; the answer is the place past them.
pub fn emit_sum(
    w: &[i64],
    p: usize,
    n: usize,
    kinds: &mut [u8],
    values: &mut [i64],
    at: usize,
) -> usize
    requires { Ready w.now p kinds.old values.old at }
    ensures { EmitsSum w.now p n kinds.old kinds.new values.old values.new at result }
{
    emit_terms(w, p, n, true, kinds, values, at)
}
