// Maps that treat each dimension by itself.
ghost use Rattle.std.specs.Prelude.{◌≡◌, true, [], ◌≤◌, pos, length, get_or};
ghost use Rattle.radix.specs.Radix.{max_count};
ghost use Rattle.shape.specs.Shape.{sizes_of, good_shape};
ghost use Rattle.map_builder.specs.Raw.{encoded};
ghost use Rattle.map_builder.specs.Draft.{steps, TreeRoom};
ghost use Rattle.operation_builder.specs.Family.{side_of, axis_at, axes_raw, Ready};
ghost use Rattle.operation_builder.specs.AxisDraft.{push_axis, add_axis, add_test, add_axes, add_tests, AxisRoom, TestRoom, AllReady, AxesRoom, TestsRoom};

use super::Change;
use indexing::IndexingMap;
use map_builder::{Draft, inner};
use operation_maps::Axis;
use shape::Shape;

// An entry, or 0 past the end.
pub fn entry(list: &[u64], k: usize) -> u64
    ensures { result ≡ get_or list.now k 0 }
{
    if k < list.len() { list[k] } else { 0 }
}

// What the operation does to dimension k.
fn axis_at(change: Change, sizes: &[u64], a: &[u64], b: &[u64], c: &[u64], k: usize) -> Axis
    ensures { result ≡ axis_at change sizes.now a.now b.now c.now k }
{
    match change {
        Change::Kept => Axis::Keep(entry(sizes, k)),
        Change::Reversed => {
            if shape::place_of(a, k as u64) < a.len() {
                Axis::Flip(entry(sizes, k))
            } else {
                Axis::Keep(entry(sizes, k))
            }
        }
        Change::Joined(dimension, by) => {
            if k as u64 == dimension {
                Axis::Shift(by, entry(sizes, k))
            } else {
                Axis::Keep(entry(sizes, k))
            }
        }
        Change::Sliced => Axis::Cut(entry(a, k), entry(b, k), entry(c, k)),
    }
}

// The lower bound of the dimension.
fn low_of(out: bool, axis: Axis) -> u64
    ensures { pos result ≡ (side_of out axis).bound.lo }
{
    match axis {
        Axis::Keep(_) => 0,
        Axis::Flip(_) => 0,
        Axis::Cut(start, _, _) => if out { 0 } else { start },
        Axis::Shift(by, _) => if out { by } else { 0 },
    }
}

// The upper bound of the dimension.
fn high_of(out: bool, axis: Axis) -> u64
    requires { Ready axis }
    ensures { (pos result ≡ (side_of out axis).bound.hi) × (result ≤ max_count) }
{
    match axis {
        Axis::Keep(size) => size - 1,
        Axis::Flip(size) => size - 1,
        Axis::Cut(start, limit, stride) => {
            let last = (limit - 1 - start) / stride;
            if out { last } else { start + last * stride }
        }
        Axis::Shift(by, size) => if out { by + (size - 1) } else { size - 1 },
    }
}

// The tree of dimension k.
fn push_axis(d: Draft, out: bool, axis: Axis, k: usize) -> Draft
    requires { TreeRoom d k × Ready axis }
    ensures { result ≡ push_axis out axis k d }
{
    match axis {
        Axis::Keep(_) => inner::push_variable(d, k),
        Axis::Flip(size) => inner::push_affine(d, k, -1, inner::natural(size - 1)),
        Axis::Cut(start, _, stride) => {
            if out {
                return inner::push_affine(d, k, inner::natural(stride), inner::natural(start));
            }
            let x = inner::push_shifted(d, k, inner::negative(start));
            inner::push_floordiv(x, stride)
        }
        Axis::Shift(by, _) => {
            if out {
                inner::push_shifted(d, k, inner::negative(by))
            } else {
                inner::push_shifted(d, k, inner::natural(by))
            }
        }
    }
}

// Dimension k: its bounds and its result.
fn add_axis(d: Draft, out: bool, axis: Axis, k: usize) -> Draft
    requires { AxisRoom d k axis }
    ensures { result ≡ add_axis out axis k d }
{
    let low = low_of(out, axis);
    let high = high_of(out, axis);
    let x = inner::add_bound(d, low, high);
    let y = push_axis(x, out, axis, k);
    inner::end_result(y)
}

// Its constraint.
fn add_test(d: Draft, out: bool, axis: Axis, k: usize) -> Draft
    requires { TestRoom d k axis }
    ensures { result ≡ add_test out axis k d }
{
    match axis {
        Axis::Keep(_) => d,
        Axis::Flip(_) => d,
        Axis::Cut(start, _, stride) => {
            if out {
                return d;
            }
            let x = inner::push_shifted(d, k, inner::negative(start));
            let y = inner::push_mod(x, stride);
            inner::end_constraint(y, 0, 0)
        }
        Axis::Shift(_, _) => d,
    }
}

// Every dimension and its result.
fn add_axes(
    d: Draft,
    out: bool,
    change: Change,
    sizes: &[u64],
    a: &[u64],
    b: &[u64],
    c: &[u64],
) -> Draft
    requires { AxesRoom d change sizes.now a.now b.now c.now }
    ensures { result ≡ steps (add_axes out change sizes.now a.now b.now c.now) (length sizes.now) d }
{
    let mut x = d;
    for i in 0..sizes.len() {
        x = add_axis(x, out, axis_at(change, sizes, a, b, c, i), i);
    }
    x
}

// Every constraint.
fn add_tests(
    d: Draft,
    out: bool,
    change: Change,
    sizes: &[u64],
    a: &[u64],
    b: &[u64],
    c: &[u64],
) -> Draft
    requires { TestsRoom d change sizes.now a.now b.now c.now }
    ensures { result ≡ steps (add_tests out change sizes.now a.now b.now c.now) (length sizes.now) d }
{
    let mut x = d;
    for i in 0..sizes.len() {
        x = add_test(x, out, axis_at(change, sizes, a, b, c, i), i);
    }
    x
}

// The map.
pub fn axes_map(
    out: bool,
    change: Change,
    sizes: &[u64],
    a: &[u64],
    b: &[u64],
    c: &[u64],
) -> IndexingMap
    requires { AllReady change sizes.now a.now b.now c.now }
    ensures { result ≡ encoded (axes_raw out change sizes.now a.now b.now c.now) }
{
    let x = add_axes(inner::empty(), out, change, sizes, a, b, c);
    let y = add_tests(x, out, change, sizes, a, b, c);
    y.map
}

// The map over a shape.
pub fn shape_axes(
    out: bool,
    change: Change,
    shape: Shape,
    a: &[u64],
    b: &[u64],
    c: &[u64],
) -> IndexingMap
    requires { (good_shape shape ≡ true) × AllReady change (sizes_of shape) a.now b.now c.now }
    ensures { result ≡ encoded (axes_raw out change (sizes_of shape) a.now b.now c.now) }
{
    axes_map(out, change, &shape.sizes[..shape.rank], a, b, c)
}

// The map over a shape whose operation has no list.
pub fn plain_axes(out: bool, change: Change, shape: Shape) -> IndexingMap
    requires { (good_shape shape ≡ true) × AllReady change (sizes_of shape) [] [] [] }
    ensures { result ≡ encoded (axes_raw out change (sizes_of shape) [] [] []) }
{
    shape_axes(out, change, shape, &[], &[], &[])
}
