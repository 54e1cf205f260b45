// Shapes, elements and points, and lists of dimensions.
#![tactic(auto)]

mod dimensions;
pub mod inner;

ghost use Rattle.std.specs.Prelude.{◌≡◌};
ghost use Rattle.shape.specs.Shape.{good_shape};
ghost use Rattle.shape.specs.Answers.{counted_answer, element_count, numbered_answer, element_number, located_answer, element_point};

pub use dimensions::{first_pair, first_repeat, in_range, is_permutation, place_of};
use refusal::Refusal;

// The most dimensions of a shape.
pub const MAX_RANK: usize = 6;

// The sizes of the first rank dimensions, major first. What stands past them is not read.
#[derive(Clone, Copy)]
pub struct Shape {
    pub rank: usize,
    pub sizes: [u64; 6],
}

// The number of a logical element, in row-major order.
#[derive(Clone, Copy)]
pub struct Element(pub u64);

// The coordinates of the first rank dimensions, and 0 past them.
#[derive(Clone, Copy)]
pub struct Point {
    pub rank: usize,
    pub coordinates: [u64; 6],
}

// The shape keeps its limits.
pub fn good_shape(shape: Shape) -> bool
    ensures { result ≡ good_shape shape }
{
    if MAX_RANK < shape.rank {
        return false;
    }
    let sizes = &shape.sizes[..shape.rank];
    radix::within(sizes, radix::MAX_SIZE) && radix::product(sizes) <= radix::MAX_COUNT
}

// How many elements a shape has.
pub fn element_count(shape: Shape) -> Result<u64, Refusal>
    ensures { counted_answer result ≡ element_count shape }
{
    if good_shape(shape) {
        Ok(inner::count_of(shape))
    } else {
        Err(Refusal::ShapeLimits)
    }
}

// The number of the element at a point.
pub fn element_number(shape: Shape, point: &[u64]) -> Result<Element, Refusal>
    ensures { numbered_answer result ≡ element_number shape point.now }
{
    if !good_shape(shape) {
        return Err(Refusal::ShapeLimits);
    }
    inner::judge_point(shape, point)?;
    Ok(Element(radix::row_major(&shape.sizes[..shape.rank], point)))
}

// The point of an element.
pub fn element_point(shape: Shape, element: Element) -> Result<Point, Refusal>
    ensures { located_answer result ≡ element_point shape element.0 }
{
    if !good_shape(shape) {
        return Err(Refusal::ShapeLimits);
    }
    if inner::count_of(shape) <= element.0 {
        return Err(Refusal::Outside);
    }
    let mut coordinates = [0u64; 6];
    radix::digits_into(&shape.sizes[..shape.rank], element.0, &mut coordinates);
    Ok(Point {
        rank: shape.rank,
        coordinates,
    })
}
