// Maps from one shape to another of as many elements.
ghost use Rattle.std.specs.Prelude.{◌≡◌, true};
ghost use Rattle.shape.specs.Shape.{sizes_of, good_shape};
ghost use Rattle.map_builder.specs.Raw.{encoded};
ghost use Rattle.operation_maps.specs.Reshape.{reshape_map};
ghost use Rattle.operation_builder.specs.ReshapeDraft.{add_digit, add_digits, DigitRoom, DigitsRoom, Reshapable};

use indexing::IndexingMap;
use map_builder::{Draft, inner};
use shape::Shape;

// One coordinate over the other shape.
fn add_digit(d: Draft, sizes: &[u64], first: bool, after: u64, size: u64) -> Draft
    requires { DigitRoom d sizes.now after size }
    ensures { result ≡ add_digit sizes.now first after size d }
{
    let l = inner::push_linear(d, sizes);
    let q = inner::push_floordiv(l, after);
    if first {
        return inner::end_result(q);
    }
    let m = inner::push_mod(q, size);
    inner::end_result(m)
}

// Every coordinate over the other shape.
fn add_digits(d: Draft, sizes: &[u64], others: &[u64]) -> Draft
    requires { DigitsRoom d sizes.now others.now }
    ensures { result ≡ add_digits sizes.now 0 others.now d }
{
    let mut out = d;
    for (i, size) in others.iter().enumerate() {
        let after = radix::product(&others[i + 1..]);
        out = add_digit(out, sizes, i == 0, after, *size);
    }
    out
}

// From one shape to another of as many elements.
fn reshape_map(from: &[u64], to: &[u64]) -> IndexingMap
    requires { Reshapable from.now to.now }
    ensures { result ≡ encoded (reshape_map from.now to.now) }
{
    let d = inner::add_whole(inner::empty(), from);
    let e = add_digits(d, from, to);
    e.map
}

// From one shape to another of as many elements, by their records.
pub fn shape_reshape(from: Shape, to: Shape) -> IndexingMap
    requires { (good_shape from ≡ true) × (good_shape to ≡ true) }
    ensures { result ≡ encoded (reshape_map (sizes_of from) (sizes_of to)) }
{
    reshape_map(&from.sizes[..from.rank], &to.sizes[..to.rank])
}
