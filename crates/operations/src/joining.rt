// Concatenation.
ghost use Rattle.std.specs.Prelude.{◌≡◌, true, ◌||◌, ◌<◌, min, eqb, get_or, []};
ghost use Rattle.refusal.specs.Judge.{judge};
ghost use Rattle.shape.specs.Shape.{sizes_of, good_shape};
ghost use Rattle.indexing.specs.Answers.{map_answer};
ghost use Rattle.map_builder.specs.Raw.{encoded};
ghost use Rattle.operation_builder.specs.Family.{axes_raw};
ghost use Rattle.operation_builder.specs.declared.Change.TheVariants.{Joined};
ghost use Rattle.operation_maps.specs.Operation.{Operation, operation_rules, operation_answer, max_operands, no_shape, operands, operand_sizes, joined_before, joined_sizes, alike, all_alike, good_sizes, good_operands, good_join};
ghost use Rattle.operations.specs.Join.{GoodOperands, Some, SumRoom, Joins};

use super::{MAX_OPERANDS, Operands, ways};
use indexing::IndexingMap;
use operation_builder::{Change, inner};
use operation_maps::Way;
use refusal::Refusal;
use shape::Shape;

// An operand.
fn operand_of(x: Operands, k: usize) -> Shape
    requires { k < max_operands }
    ensures { result ≡ get_or x.shapes k no_shape }
{
    x.shapes[k]
}

// As many as count and are held.
fn held_count(count: usize) -> usize
    ensures { result ≡ min count max_operands }
{
    count.min(MAX_OPERANDS)
}

// The size of a dimension, or 0.
fn size_of(shape: Shape, dimension: u64) -> u64
    requires { good_shape shape ≡ true }
    ensures { result ≡ get_or (sizes_of shape) dimension 0 }
{
    inner::entry(&shape.sizes[..shape.rank], dimension as usize)
}

// One dimension of two operands.
fn same_at(dimension: u64, k: u64, a: u64, b: u64) -> bool
    ensures { result ≡ (eqb k dimension || eqb a b) }
{
    k == dimension || a == b
}

// One rank, and one size in every dimension but the one joined.
fn alike_sizes(dimension: u64, a: &[u64], b: &[u64]) -> bool
    ensures { result ≡ alike dimension a.now b.now }
{
    if a.len() != b.len() {
        return false;
    }
    for k in 0..a.len() {
        if !same_at(dimension, k as u64, a[k], b[k]) {
            return false;
        }
    }
    true
}

// The same of two shapes.
fn alike_shapes(dimension: u64, a: Shape, b: Shape) -> bool
    requires { (good_shape a ≡ true) × (good_shape b ≡ true) }
    ensures { result ≡ alike dimension (sizes_of a) (sizes_of b) }
{
    alike_sizes(dimension, &a.sizes[..a.rank], &b.sizes[..b.rank])
}

// Every operand within the limits.
fn good_operands(x: Operands) -> bool
    ensures { result ≡ good_operands x.count x.shapes }
{
    for k in 0..held_count(x.count) {
        if !shape::good_shape(operand_of(x, k)) {
            return false;
        }
    }
    true
}

// Every operand like the first.
fn all_alike(x: Operands, dimension: u64) -> bool
    requires { Some x }
    ensures { result ≡ all_alike x.count x.shapes dimension }
{
    let first = operand_of(x, 0);
    for k in 0..x.count {
        if !alike_shapes(dimension, first, operand_of(x, k)) {
            return false;
        }
    }
    true
}

// The joined sizes of the first operands together.
fn joined_before(x: Operands, dimension: u64, n: usize) -> u64
    requires { SumRoom x n }
    ensures { result ≡ joined_before x.count x.shapes dimension n }
{
    let mut sum: u64 = 0;
    for k in 0..n {
        sum += size_of(operand_of(x, k), dimension);
    }
    sum
}

// The count, the dimension, the operand asked for, and that they are alike.
fn good_join(x: Operands, dimension: u64, operand: u64) -> bool
    requires { GoodOperands x }
    ensures { result ≡ good_join x.count x.shapes dimension operand }
{
    let count = x.count;
    if count < 1 {
        return false;
    }
    if MAX_OPERANDS < count {
        return false;
    }
    let first = operand_of(x, 0);
    let rank = first.rank;
    if rank as u64 <= dimension {
        return false;
    }
    if count as u64 <= operand {
        return false;
    }
    all_alike(x, dimension)
}

// The shape of the result.
fn good_result(x: Operands, dimension: u64) -> bool
    requires { Joins x dimension }
    ensures { result ≡ good_sizes (joined_sizes x.count x.shapes dimension) }
{
    let first = operand_of(x, 0);
    let rank = first.rank;
    let mut sizes = first.sizes;
    let k = dimension as usize;
    sizes[k] = joined_before(x, dimension, x.count);
    shape::good_shape(Shape { rank, sizes })
}

// The operands' shapes (1), the attributes (2), and the result's shape (1).
fn judge_concatenate(x: Operands, dimension: u64, operand: u64) -> Result<(), Refusal>
    ensures { result ≡ judge (operation_rules (Operation.concatenate x.count x.shapes dimension operand)) }
{
    if !good_operands(x) {
        return Err(Refusal::ShapeLimits);
    }
    if !good_join(x, dimension, operand) {
        return Err(Refusal::Attribute);
    }
    if !good_result(x, dimension) {
        return Err(Refusal::ShapeLimits);
    }
    Ok(())
}

// The map of the operand asked for.
fn joined_map(out: bool, x: Operands, dimension: u64, operand: u64) -> IndexingMap
    requires { judge (operation_rules (Operation.concatenate x.count x.shapes dimension operand)) ≡ Ok tt }
    ensures { result ≡ encoded (axes_raw out (Joined dimension (joined_before x.count x.shapes dimension operand)) (operand_sizes x.count x.shapes operand) [] [] []) }
{
    let k = operand as usize;
    let by = joined_before(x, dimension, k);
    inner::plain_axes(out, Change::Joined(dimension, by), operand_of(x, k))
}

// The map of a concatenation to or from one of its operands, folded.
pub fn concatenate(
    way: Way,
    operands: Operands,
    dimension: u64,
    operand: u64,
) -> Result<IndexingMap, Refusal>
    ensures { map_answer result ≡ operation_answer way (Operation.concatenate operands.count operands.shapes dimension operand) }
{
    judge_concatenate(operands, dimension, operand)?;
    fold::fold_map(joined_map(ways::is_out(way), operands, dimension, operand))
}
