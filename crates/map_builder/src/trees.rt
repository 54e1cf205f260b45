// The nodes of the tree under way, by their kinds: a leaf, or a node over the last tree or the last two.
ghost use Rattle.std.specs.Prelude.{◌≡◌};
ghost use Rattle.map_builder.specs.Draft.{push_variable, push_constant, push_sum, push_product, push_floordiv, push_mod, push_shifted, push_affine, NodeRoom, NumberRoom, TreeRoom};

use super::{Draft, drafts};

// The kinds of nodes.
const VARIABLE: u8 = 0;

const CONSTANT: u8 = 1;

const SUM: u8 = 2;

const PRODUCT: u8 = 3;

const FLOORDIV: u8 = 4;

const MOD: u8 = 5;

// A variable by its place: a dimension, or a range variable from 8 on.
pub fn push_variable(d: Draft, place: usize) -> Draft
    requires { NumberRoom d place }
    ensures { result ≡ push_variable d place }
{
    drafts::push_node(d, VARIABLE, place as i64)
}

// A constant.
pub fn push_constant(d: Draft, value: i64) -> Draft
    requires { NodeRoom d }
    ensures { result ≡ push_constant d value }
{
    drafts::push_node(d, CONSTANT, value)
}

// The sum of the last two trees.
pub fn push_sum(d: Draft) -> Draft
    requires { NodeRoom d }
    ensures { result ≡ push_sum d }
{
    drafts::push_node(d, SUM, 0)
}

// The last tree times a factor.
pub fn push_product(d: Draft, factor: i64) -> Draft
    requires { NodeRoom d }
    ensures { result ≡ push_product d factor }
{
    drafts::push_node(d, PRODUCT, factor)
}

// The last tree, divided.
pub fn push_floordiv(d: Draft, divisor: u64) -> Draft
    requires { NumberRoom d divisor }
    ensures { result ≡ push_floordiv d divisor }
{
    drafts::push_node(d, FLOORDIV, divisor as i64)
}

// What the division of the last tree leaves.
pub fn push_mod(d: Draft, divisor: u64) -> Draft
    requires { NumberRoom d divisor }
    ensures { result ≡ push_mod d divisor }
{
    drafts::push_node(d, MOD, divisor as i64)
}

// A dimension and a constant.
pub fn push_shifted(d: Draft, k: usize, by: i64) -> Draft
    requires { TreeRoom d k }
    ensures { result ≡ push_shifted d k by }
{
    let x = push_variable(d, k);
    let y = push_constant(x, by);
    push_sum(y)
}

// A dimension times a factor, and a constant.
pub fn push_affine(d: Draft, k: usize, factor: i64, by: i64) -> Draft
    requires { TreeRoom d k }
    ensures { result ≡ push_affine d k factor by }
{
    let x = push_variable(d, k);
    let y = push_product(x, factor);
    let z = push_constant(y, by);
    push_sum(z)
}
