// The plain loop for a benchmark: one offset for each element, by plain division or through the lent multipliers.
ghost use Rattle.std.specs.Prelude.{◌≡◌, ◌≤◌, length, Ok};
ghost use Rattle.radix.specs.Radix.{prod};
ghost use Rattle.refusal.specs.Judge.{judge};
ghost use Rattle.reciprocal.specs.Multiplier.{AreMultipliers};
ghost use Rattle.shape.specs.Shape.{count_of};
ghost use Rattle.tiling.specs.Tile.{tiles_from, padded};
ghost use Rattle.tiling.specs.Ready.{Ready};
ghost use Rattle.layout.specs.Layout.{layout_rules, padded_of};

use layout::Layout;
use reciprocal::inner;
use shape::Shape;
use tiling::Tiled;

// Every element to its cell, 0 in padding, divided through the multipliers m.
fn plain_in(
    sizes: &[u64],
    p: &[u64],
    lens: &[usize],
    flat: &[u64],
    source: &[u32],
    cells: &mut [u32],
    m: &[u64],
)
    requires are_multipliers { AreMultipliers m.now }
    requires ready { Ready sizes.now p.now lens.now flat.now }
    requires sizes_in_bounds { (prod sizes.now ≤ length source.now) × (padded sizes.now p.now (tiles_from lens.now flat.now) ≤ length cells.old) }
{
    let d = tiling::physical_dims(sizes, p, lens, flat);
    let t = Tiled {
        sizes,
        order: p,
        lens,
        entries: flat,
        dims: &d.at[..d.len],
        multipliers: m,
    };
    let size = radix::product(t.dims) as usize;
    cells[..size].fill(0);
    for n in 0..radix::product(sizes) {
        cells[t.offset(n) as usize] = source[n as usize];
    }
}

// The same from the records.
fn plain_all(shape: Shape, layout: Layout, source: &[u32], cells: &mut [u32], m: &[u64])
    requires are_multipliers { AreMultipliers m.now }
    requires layout_value { (judge (layout_rules shape layout) ≡ Ok tt) × (count_of shape ≤ length source.now) × (padded_of shape layout ≤ length cells.old) }
{
    let mut order = [0u64; 6];
    tiling::reverse_into(&layout.minor_to_major[..shape.rank], &mut order);
    plain_in(
        &shape.sizes[..shape.rank],
        &order[..shape.rank],
        &layout.tile_len[..layout.tiles],
        &layout.tile,
        source,
        cells,
        m,
    );
}

// With the whole table lent.
pub fn by_table(shape: Shape, layout: Layout, source: &[u32], cells: &mut [u32])
    requires { (judge (layout_rules shape layout) ≡ Ok tt) × (count_of shape ≤ length source.now) × (padded_of shape layout ≤ length cells.old) }
{
    let m = inner::multipliers();
    plain_all(shape, layout, source, cells, &m.at);
}

// With an empty one, so that every number is divided plainly.
pub fn by_division(shape: Shape, layout: Layout, source: &[u32], cells: &mut [u32])
    requires { (judge (layout_rules shape layout) ≡ Ok tt) × (count_of shape ≤ length source.now) × (padded_of shape layout ≤ length cells.old) }
{
    plain_all(shape, layout, source, cells, &[]);
}
