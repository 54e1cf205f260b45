// Packing a table into the cells of a layout and back, and storing and loading one element, over lent buffers.
#![tactic(auto)]

mod cut;
mod loops;
mod rows;
mod runs;
mod table;

ghost use Rattle.std.specs.Prelude.{◌≡◌, [], ◌∷◌, length, Ok};
ghost use Rattle.refusal.specs.Judge.{judge};
ghost use Rattle.refusal.specs.Number.{verdict_answer};
ghost use Rattle.shape.specs.Shape.{sizes_of};
ghost use Rattle.tiling.specs.Tiled.{IsTiled};
ghost use Rattle.layout.specs.Layout.{order_of, lens_of, layout_rules};
ghost use Rattle.layout.specs.Measured.{IsExtent};
ghost use Rattle.pack.specs.Answers.{buffer_rule, store_rules, pack_answer, pack_cells, unpack_answer, unpack_places, store_answer, store_cells, loaded_answer, load_value};
ghost use Rattle.pack.specs.Answers.{MeasuredCall};

use layout::parts::Extent;
use layout::{Layout, parts};
use refusal::Refusal;
use shape::{Element, Shape};
use tiling::Tiled;

// The last rule of a pack or unpack, 9, for the places lent for elements and for cells.
fn judge_buffers(extent: Extent, elements: usize, cells: usize) -> Result<(), Refusal>
    ensures { result ≡ judge (buffer_rule extent.count extent.padded elements cells ∷ []) }
{
    if (elements as u64) < extent.count || (cells as u64) < extent.padded {
        return Err(Refusal::ShortBuffer);
    }
    Ok(())
}

// The rules of a store or load: 1, 3, 4, then 5 for the element and 9 for the cells.
fn judge_element(shape: Shape, layout: Layout, n: u64, cells: usize) -> Result<(), Refusal>
    ensures { result ≡ judge (store_rules shape layout n cells) }
{
    layout::judge_layout(shape, layout)?;
    if shape::inner::count_of(shape) <= n {
        return Err(Refusal::Outside);
    }
    if (cells as u64) < layout::inner::padded_cells(shape, layout) {
        return Err(Refusal::ShortBuffer);
    }
    Ok(())
}

// The order and the physical shape at the fronts of order and dims, and the extent, where a pack or unpack breaks no rule: 1, 3, 4, then 9.
fn measure_call(
    shape: Shape,
    layout: &Layout,
    elements: usize,
    cells: usize,
    order: &mut [u64; 6],
    dims: &mut [u64; 24],
) -> Result<Extent, Refusal>
    ensures { MeasuredCall result shape layout.now elements cells order.new dims.new }
{
    let x = parts::measure(
        shape,
        layout.rank,
        &layout.minor_to_major,
        layout.tiles,
        &layout.tile_len,
        &layout.tile,
        order,
        dims,
    )?;
    judge_buffers(x, elements, cells)?;
    Ok(x)
}

// The lists of a shape and a layout, with the order and the physical shape that were measured, to divide plainly.
fn tiled_of<'a>(
    shape: &'a Shape,
    layout: &'a Layout,
    x: Extent,
    order: &'a [u64; 6],
    dims: &'a [u64; 24],
) -> Tiled<'a>
    requires judged { judge (layout_rules shape.now layout.now) ≡ Ok tt }
    requires extent { IsExtent x shape.now layout.now order.now dims.now }
    ensures { IsTiled result (sizes_of shape.now) (order_of layout.now) (lens_of layout.now) layout.now.tile }
{
    Tiled {
        sizes: &shape.sizes[..shape.rank],
        order: &order[..shape.rank],
        lens: &layout.tile_len[..layout.tiles],
        entries: &layout.tile,
        dims: &dims[..x.len],
        multipliers: &[],
    }
}

// Every element to its cell and 0 into padding; cells past the padded size stay.
pub fn pack(shape: Shape, layout: Layout, source: &[u32], cells: &mut [u32]) -> Result<(), Refusal>
    ensures { (verdict_answer result ≡ pack_answer shape layout source.now cells.old) × (cells.new ≡ pack_cells shape layout source.now cells.old) }
{
    let mut order = [0u64; 6];
    let mut dims = [0u64; 24];
    let n = source.len();
    let x = measure_call(shape, &layout, n, cells.len(), &mut order, &mut dims)?;
    let t = tiled_of(&shape, &layout, x, &order, &dims);
    loops::pack_in(&t, x.count, x.padded, source, cells);
    Ok(())
}

// Every element from its cell; places past the element count stay.
pub fn unpack(
    shape: Shape,
    layout: Layout,
    cells: &[u32],
    destination: &mut [u32],
) -> Result<(), Refusal>
    ensures { (verdict_answer result ≡ unpack_answer shape layout cells.now destination.old) × (destination.new ≡ unpack_places shape layout cells.now destination.old) }
{
    let mut order = [0u64; 6];
    let mut dims = [0u64; 24];
    let n = destination.len();
    let x = measure_call(shape, &layout, n, cells.len(), &mut order, &mut dims)?;
    let t = tiled_of(&shape, &layout, x, &order, &dims);
    loops::unpack_in(&t, x.count, cells, destination);
    Ok(())
}

// One element into its cell; every other cell stays.
pub fn store(
    shape: Shape,
    layout: Layout,
    element: Element,
    value: u32,
    cells: &mut [u32],
) -> Result<(), Refusal>
    ensures { (verdict_answer result ≡ store_answer shape layout element.0 cells.old) × (cells.new ≡ store_cells shape layout element.0 value cells.old) }
{
    let n = element.0;
    judge_element(shape, layout, n, cells.len())?;
    let o = layout::inner::offset_number(shape, layout, n) as usize;
    cells[o] = value;
    Ok(())
}

// One element from its cell.
pub fn load(shape: Shape, layout: Layout, element: Element, cells: &[u32]) -> Result<u32, Refusal>
    ensures { loaded_answer result ≡ load_value shape layout element.0 cells.now }
{
    let n = element.0;
    judge_element(shape, layout, n, cells.len())?;
    let o = layout::inner::offset_number(shape, layout, n) as usize;
    Ok(cells[o])
}
