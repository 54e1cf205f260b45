// Reshape.
ghost use Rattle.std.specs.Prelude.{◌≡◌, true};
ghost use Rattle.refusal.specs.Judge.{judge};
ghost use Rattle.indexing.specs.Answers.{map_answer};
ghost use Rattle.operation_maps.specs.Operation.{Operation, operation_rules, raw_of, operation_answer};
ghost use Rattle.shape.specs.Shape.{good_shape};
ghost use Rattle.map_builder.specs.Raw.{encoded};

use super::ways;
use indexing::IndexingMap;
use operation_builder::inner;
use operation_maps::Way;
use refusal::Refusal;
use shape::Shape;

// Both shapes (1), and that their element counts agree (2).
fn judge_reshape(input: Shape, output: Shape) -> Result<(), Refusal>
    ensures { result ≡ judge (operation_rules (Operation.reshape input output)) }
{
    if !shape::good_shape(input) {
        return Err(Refusal::ShapeLimits);
    }
    if !shape::good_shape(output) {
        return Err(Refusal::ShapeLimits);
    }
    if shape::inner::count_of(input) != shape::inner::count_of(output) {
        return Err(Refusal::Attribute);
    }
    Ok(())
}

// From the output to the input, or from the input to the output.
fn reshape_either(way: Way, input: Shape, output: Shape) -> IndexingMap
    requires { (good_shape input ≡ true) × (good_shape output ≡ true) }
    ensures { result ≡ encoded (raw_of way (Operation.reshape input output)) }
{
    match way {
        Way::OutputToInput => inner::shape_reshape(output, input),
        Way::InputToOutput => inner::shape_reshape(input, output),
    }
}

// The map of a reshape, folded.
pub fn reshape(way: Way, input: Shape, output: Shape) -> Result<IndexingMap, Refusal>
    ensures { map_answer result ≡ operation_answer way (Operation.reshape input output) }
{
    judge_reshape(input, output)?;
    fold::fold_map(reshape_either(way, input, output))
}
