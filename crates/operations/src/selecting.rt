// Operations whose smaller point has some of the larger point's coordinates.
ghost use Rattle.std.specs.Prelude.{◌≡◌};
ghost use Rattle.indexing.specs.Answers.{map_answer};
ghost use Rattle.operation_maps.specs.Operation.{Operation, operation_answer};

use super::{judging, ways};
use indexing::IndexingMap;
use operation_builder::inner;
use operation_maps::Way;
use refusal::Refusal;
use shape::Shape;

// The map of a transpose, folded.
pub fn transpose(way: Way, input: Shape, dimensions: &[u64]) -> Result<IndexingMap, Refusal>
    ensures { map_answer result ≡ operation_answer way (Operation.transpose input dimensions.now) }
{
    judging::judge_transpose(input, dimensions)?;
    fold::fold_map(inner::shape_selection(ways::is_out(way), input, dimensions))
}

// The map of a broadcast, folded.
pub fn broadcast(
    way: Way,
    input: Shape,
    output: Shape,
    dimensions: &[u64],
) -> Result<IndexingMap, Refusal>
    ensures { map_answer result ≡ operation_answer way (Operation.broadcast input output dimensions.now) }
{
    judging::judge_broadcast(input, output, dimensions)?;
    fold::fold_map(inner::shape_selection(!ways::is_out(way), output, dimensions))
}

// The map of a reduce, folded.
pub fn reduce(way: Way, input: Shape, dimensions: &[u64]) -> Result<IndexingMap, Refusal>
    ensures { map_answer result ≡ operation_answer way (Operation.reduce input dimensions.now) }
{
    judging::judge_dimensions(input, dimensions)?;
    fold::fold_map(inner::rest_selection(ways::is_out(way), input, dimensions))
}

// The map of a reduce to or from its initial value, folded.
pub fn reduce_init(way: Way, input: Shape, dimensions: &[u64]) -> Result<IndexingMap, Refusal>
    ensures { map_answer result ≡ operation_answer way (Operation.reduce_init input dimensions.now) }
{
    judging::judge_dimensions(input, dimensions)?;
    fold::fold_map(inner::none_selection(!ways::is_out(way), input, dimensions))
}
