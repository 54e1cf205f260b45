// Padded size, offsets and cells of records that break no rule. Inner functions.
ghost use Rattle.std.specs.Prelude.{◌≡◌, ◌+◌, ◌<◌, min, take, true};
ghost use Rattle.radix.specs.Radix.{max_count, In};
ghost use Rattle.refusal.specs.Judge.{judge};
ghost use Rattle.shape.specs.Shape.{good_shape, sizes_of, count_of};
ghost use Rattle.tiling.specs.Found.{found_cell};
ghost use Rattle.layout.specs.Layout.{good_layout, layout_rules, order_of, padded_of, offset_of, point_offset_of, cell_of};

use super::Layout;
use shape::Shape;

// The dimensions in physical order, major first, in the first rank places.
fn order_of(rank: usize, layout: Layout) -> [u64; 6]
    requires { good_layout rank layout ≡ true }
    ensures { take rank result ≡ order_of layout }
{
    let mut order = [0u64; 6];
    tiling::reverse_into(&layout.minor_to_major[..rank], &mut order);
    order
}

// The padded size, exact up to 2^40 and 2^40 + 1 for anything above.
pub fn padded_capped(shape: Shape, layout: Layout) -> u64
    requires { (good_shape shape ≡ true) × (good_layout shape.rank layout ≡ true) }
    ensures { result ≡ min (padded_of shape layout) (max_count + 1) }
{
    let rank = shape.rank;
    let order = order_of(rank, layout);
    tiling::padded_cells(
        &shape.sizes[..rank],
        &order[..rank],
        &layout.tile_len[..layout.tiles],
        &layout.tile,
    )
}

// The padded size.
pub fn padded_cells(shape: Shape, layout: Layout) -> u64
    requires { judge (layout_rules shape layout) ≡ Ok tt }
    ensures { result ≡ padded_of shape layout }
{
    padded_capped(shape, layout)
}

// The offset of element number n.
pub fn offset_number(shape: Shape, layout: Layout, n: u64) -> u64
    requires { (judge (layout_rules shape layout) ≡ Ok tt) × (n < count_of shape) }
    ensures { result ≡ offset_of shape layout n }
{
    let rank = shape.rank;
    let order = order_of(rank, layout);
    tiling::element_offset(
        &shape.sizes[..rank],
        &order[..rank],
        &layout.tile_len[..layout.tiles],
        &layout.tile,
        n,
    )
}

// The offset of a point.
pub fn point_offset(shape: Shape, layout: Layout, point: &[u64]) -> u64
    requires { (judge (layout_rules shape layout) ≡ Ok tt) × In point.now (sizes_of shape) }
    ensures { result ≡ point_offset_of shape layout point.now }
{
    let n = radix::row_major(&shape.sizes[..shape.rank], point);
    offset_number(shape, layout, n)
}

// What the cell at offset k holds.
pub fn cell_found(shape: Shape, layout: Layout, k: u64) -> Option<u64>
    requires { (judge (layout_rules shape layout) ≡ Ok tt) × (k < padded_of shape layout) }
    ensures { found_cell result ≡ cell_of shape layout k }
{
    let rank = shape.rank;
    let order = order_of(rank, layout);
    tiling::cell_found(
        &shape.sizes[..rank],
        &order[..rank],
        &layout.tile_len[..layout.tiles],
        &layout.tile,
        k,
    )
}
