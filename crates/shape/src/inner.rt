// Element count and points of a shape that keeps its limits: for calls that have judged the shape.
ghost use Rattle.std.specs.Prelude.{◌≡◌, true};
ghost use Rattle.refusal.specs.Judge.{judge};
ghost use Rattle.shape.specs.Shape.{good_shape, count_of};
ghost use Rattle.shape.specs.Answers.{inside_rules};

use super::Shape;
use refusal::Refusal;

// The element count.
pub fn count_of(shape: Shape) -> u64
    requires { good_shape shape ≡ true }
    ensures { result ≡ count_of shape }
{
    radix::product(&shape.sizes[..shape.rank])
}

// A point: its length (6), and that it lies inside (5).
pub fn judge_point(shape: Shape, point: &[u64]) -> Result<(), Refusal>
    requires { good_shape shape ≡ true }
    ensures { result ≡ judge (inside_rules shape point.now) }
{
    if point.len() != shape.rank {
        Err(Refusal::WrongLength)
    } else if radix::inside(point, &shape.sizes[..shape.rank]) {
        Ok(())
    } else {
        Err(Refusal::Outside)
    }
}
