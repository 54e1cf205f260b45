// Judging a shape and the parts of a layout once, with what a call that goes on needs: the order, the physical shape, and the two counts. Inner functions.
ghost use Rattle.std.specs.Prelude.{◌≡◌, length};
ghost use Rattle.shape.specs.Shape.{max_rank};
ghost use Rattle.tiling.specs.Tile.{max_physical, reversed};
ghost use Rattle.tiling.specs.Ready.{Shaped};
ghost use Rattle.layout.specs.Layout.{layout_from};
ghost use Rattle.layout.specs.Measured.{Lengths, LaidOut, Measured};

use super::judge;
use refusal::Refusal;
use shape::Shape;

// The length of the physical shape, the element count and the padded size.
#[derive(Clone, Copy)]
pub struct Extent {
    pub len: usize,
    pub count: u64,
    pub padded: u64,
}

// The order and the physical shape, at the fronts of order and dims, and the extent: the padded size is exact up to 2^40 and 2^40 + 1 for anything above.
fn lay_out(
    sizes: &[u64],
    m: &[u64],
    lens: &[usize],
    flat: &[u64],
    order: &mut [u64],
    dims: &mut [u64],
) -> Extent
    requires shaped { Shaped sizes.now (reversed m.now) lens.now flat.now }
    requires order_len { (length order.old ≡ max_rank) × (length dims.old ≡ max_physical) }
    ensures { LaidOut result sizes.now m.now lens.now flat.now order.new dims.new }
{
    tiling::reverse_into(m, order);
    let len = tiling::dims_into(sizes, &order[..m.len()], lens, flat, dims);
    Extent {
        len,
        count: radix::product(sizes),
        padded: radix::product(&dims[..len]),
    }
}

// The rules of a shape and the layout of these parts, 1, 3, 4; where they are kept order and dims are written at their fronts.
pub fn measure(
    shape: Shape,
    rank: usize,
    m: &[u64],
    tiles: usize,
    lens: &[usize],
    flat: &[u64],
    order: &mut [u64],
    dims: &mut [u64],
) -> Result<Extent, Refusal>
    requires { Lengths m.now lens.now flat.now order.old dims.old }
    ensures { Measured result shape (layout_from rank m.now tiles lens.now flat.now) order.new dims.new }
{
    if !shape::good_shape(shape) {
        return Err(Refusal::ShapeLimits);
    }
    let n = shape.rank;
    if !judge::good_parts(n, rank, m, tiles, lens, flat) {
        return Err(Refusal::LayoutRule);
    }
    let extent = lay_out(
        &shape.sizes[..n],
        &m[..n],
        &lens[..tiles],
        flat,
        order,
        dims,
    );
    if radix::MAX_COUNT < extent.padded {
        return Err(Refusal::PaddedSize);
    }
    Ok(extent)
}
