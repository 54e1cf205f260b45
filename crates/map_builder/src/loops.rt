// The dimensions of a shape, results that are dimensions, and the linear index.
ghost use Rattle.std.specs.Prelude.{◌≡◌, length};
ghost use Rattle.map_builder.specs.Draft.{steps, add_size, add_selected, add_variable, push_term, push_linear, WholeRoom, SelectedRoom, VariableRoom, TermRoom, LinearRoom};

use super::{Draft, drafts, signs, trees};

// The dimensions of a shape.
pub fn add_whole(d: Draft, sizes: &[u64]) -> Draft
    requires { WholeRoom d sizes.now }
    ensures { result ≡ steps (add_size sizes.now) (length sizes.now) d }
{
    let mut out = d;
    for size in sizes {
        out = drafts::add_bound(out, 0, *size - 1);
    }
    out
}

// The dimensions of a shape at the places listed.
pub fn add_selected(d: Draft, sizes: &[u64], list: &[u64]) -> Draft
    requires { SelectedRoom d sizes.now list.now }
    ensures { result ≡ steps (add_selected sizes.now list.now) (length list.now) d }
{
    let mut out = d;
    for k in list {
        out = drafts::add_bound(out, 0, sizes[*k as usize] - 1);
    }
    out
}

// Results that are the dimensions listed.
pub fn add_variables(d: Draft, list: &[u64]) -> Draft
    requires { VariableRoom d list.now }
    ensures { result ≡ steps (add_variable list.now) (length list.now) d }
{
    let mut out = d;
    for k in list {
        out = drafts::end_result(trees::push_variable(out, *k as usize));
    }
    out
}

// One term of the linear index.
fn push_term(d: Draft, k: usize, factor: u64) -> Draft
    requires { TermRoom d k factor }
    ensures { result ≡ push_term d k factor }
{
    let v = trees::push_variable(d, k);
    let p = trees::push_product(v, signs::natural(factor));
    if k == 0 { p } else { trees::push_sum(p) }
}

// The linear index over sizes.
pub fn push_linear(d: Draft, sizes: &[u64]) -> Draft
    requires { LinearRoom d sizes.now }
    ensures { result ≡ push_linear sizes.now d }
{
    if sizes.is_empty() {
        return trees::push_constant(d, 0);
    }
    let mut out = d;
    for i in 0..sizes.len() {
        out = push_term(out, i, radix::product(&sizes[i + 1..]));
    }
    out
}
