// Operations that treat each dimension by itself.
ghost use Rattle.std.specs.Prelude.{◌≡◌};
ghost use Rattle.indexing.specs.Answers.{map_answer};
ghost use Rattle.operation_maps.specs.Operation.{Operation, operation_answer};

use super::{judging, ways};
use indexing::IndexingMap;
use operation_builder::{Change, inner};
use operation_maps::Way;
use refusal::Refusal;
use shape::Shape;

// The map of an elementwise operation, folded.
pub fn elementwise(way: Way, input: Shape) -> Result<IndexingMap, Refusal>
    ensures { map_answer result ≡ operation_answer way (Operation.elementwise input) }
{
    judging::judge_shape(input)?;
    fold::fold_map(inner::plain_axes(ways::is_out(way), Change::Kept, input))
}

// The map of a reverse, folded.
pub fn reverse(way: Way, input: Shape, dimensions: &[u64]) -> Result<IndexingMap, Refusal>
    ensures { map_answer result ≡ operation_answer way (Operation.reverse input dimensions.now) }
{
    judging::judge_dimensions(input, dimensions)?;
    fold::fold_map(inner::shape_axes(
        ways::is_out(way),
        Change::Reversed,
        input,
        dimensions,
        dimensions,
        dimensions,
    ))
}

// The map of a slice, folded.
pub fn slice(
    way: Way,
    input: Shape,
    starts: &[u64],
    limits: &[u64],
    strides: &[u64],
) -> Result<IndexingMap, Refusal>
    ensures { map_answer result ≡ operation_answer way (Operation.slice input starts.now limits.now strides.now) }
{
    judging::judge_slice(input, starts, limits, strides)?;
    fold::fold_map(inner::shape_axes(
        ways::is_out(way),
        Change::Sliced,
        input,
        starts,
        limits,
        strides,
    ))
}
