// Shapes and lists of dimensions, judged.
ghost use Rattle.std.specs.Prelude.{◌≡◌, ◌&&◌, eqb, length};
ghost use Rattle.refusal.specs.Number.{verdict_answer};
ghost use Rattle.refusal.specs.Judge.{judge};
ghost use Rattle.shape.specs.Dimensions.{in_range};
ghost use Rattle.operation_maps.specs.Operation.{Operation, operation_rules, list_rules, good_broadcast, good_cut, good_cuts};

use super::MAX_STRIDE;
use refusal::Refusal;
use shape::Shape;

// The shapes (1), the other attributes (2), and the first repeat (2).
fn judge_list(shapes: bool, attributes: bool, list: &[u64]) -> Result<(), Refusal>
    ensures { verdict_answer result ≡ verdict_answer (judge (list_rules shapes attributes list.now)) }
{
    if !shapes {
        return Err(Refusal::ShapeLimits);
    }
    if !attributes {
        return Err(Refusal::Attribute);
    }
    shape::first_repeat(list)
}

// One entry for each dimension, every one in range.
fn lists_all(list: &[u64], rank: usize) -> bool
    ensures { result ≡ (eqb (length list.now) rank && in_range rank list.now) }
{
    list.len() == rank && shape::in_range(list, rank as u64)
}

// A transpose.
pub fn judge_transpose(input: Shape, dimensions: &[u64]) -> Result<(), Refusal>
    ensures { verdict_answer result ≡ verdict_answer (judge (operation_rules (Operation.transpose input dimensions.now))) }
{
    judge_list(
        shape::good_shape(input),
        lists_all(dimensions, input.rank),
        dimensions,
    )
}

// Dimensions that are turned round, or that go: reverse and reduce.
pub fn judge_dimensions(input: Shape, dimensions: &[u64]) -> Result<(), Refusal>
    ensures { verdict_answer result ≡ verdict_answer (judge (operation_rules (Operation.reduce input dimensions.now))) }
{
    judge_list(
        shape::good_shape(input),
        shape::in_range(dimensions, input.rank as u64),
        dimensions,
    )
}

// One output dimension of equal size for each input dimension.
fn good_broadcast(inner: &[u64], outer: &[u64], list: &[u64]) -> bool
    ensures { result ≡ good_broadcast inner.now outer.now list.now }
{
    if list.len() != inner.len() {
        return false;
    }
    if !shape::in_range(list, outer.len() as u64) {
        return false;
    }
    for (k, at) in list.iter().enumerate() {
        if inner[k] != outer[*at as usize] {
            return false;
        }
    }
    true
}

// A broadcast.
pub fn judge_broadcast(input: Shape, output: Shape, dimensions: &[u64]) -> Result<(), Refusal>
    ensures { verdict_answer result ≡ verdict_answer (judge (operation_rules (Operation.broadcast input output dimensions.now))) }
{
    if !shape::good_shape(input) {
        return Err(Refusal::ShapeLimits);
    }
    if !shape::good_shape(output) {
        return Err(Refusal::ShapeLimits);
    }
    let good = good_broadcast(
        &input.sizes[..input.rank],
        &output.sizes[..output.rank],
        dimensions,
    );
    judge_list(true, good, dimensions)
}

// A shape alone.
pub fn judge_shape(shape: Shape) -> Result<(), Refusal>
    ensures { result ≡ judge (operation_rules (Operation.elementwise shape)) }
{
    if shape::good_shape(shape) {
        return Ok(());
    }
    Err(Refusal::ShapeLimits)
}

// A cut of one dimension.
fn good_cut(size: u64, start: u64, limit: u64, stride: u64) -> bool
    ensures { result ≡ good_cut size start limit stride }
{
    start < limit && limit <= size && 1 <= stride && stride <= MAX_STRIDE
}

// A cut of every dimension.
fn good_cuts(sizes: &[u64], starts: &[u64], limits: &[u64], strides: &[u64]) -> bool
    ensures { result ≡ good_cuts sizes.now starts.now limits.now strides.now }
{
    if starts.len() != sizes.len() {
        return false;
    }
    if limits.len() != sizes.len() {
        return false;
    }
    if strides.len() != sizes.len() {
        return false;
    }
    for (k, size) in sizes.iter().enumerate() {
        if !good_cut(*size, starts[k], limits[k], strides[k]) {
            return false;
        }
    }
    true
}

// A slice.
pub fn judge_slice(
    input: Shape,
    starts: &[u64],
    limits: &[u64],
    strides: &[u64],
) -> Result<(), Refusal>
    ensures { result ≡ judge (operation_rules (Operation.slice input starts.now limits.now strides.now)) }
{
    if !shape::good_shape(input) {
        return Err(Refusal::ShapeLimits);
    }
    if !good_cuts(&input.sizes[..input.rank], starts, limits, strides) {
        return Err(Refusal::Attribute);
    }
    Ok(())
}
