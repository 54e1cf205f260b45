// Re-tiling: from a lent buffer in one layout to another in another layout, with a lent mark that says how many cells are final.
#![tactic(auto)]

mod along;
mod retiling;
mod run;
mod sides;
mod stores;
mod values;

ghost use Rattle.std.specs.Prelude.{◌≡◌, ◌+◌, ◌≤◌, length};
ghost use Rattle.layout.specs.Layout.{padded_of};
ghost use Rattle.retile.specs.Stores.{memory, apply_all, stores};
ghost use Rattle.retile.specs.Retile.{value_of};
ghost use Rattle.retile.specs.Steps.{IsMeasured};
ghost use Rattle.retile.specs.Answers.{retiled_answer, retile_answer, retile_left};

use layout::Layout;
use refusal::Refusal;
use retiling::Retiling;
use shape::Shape;
use sides::Side;
use tiling::Tiled;

// Settles count cells from the mark on, where both sides are measured.
fn settle_in(
    shape: Shape,
    from: Layout,
    a: Side,
    to: Layout,
    b: Side,
    source: &[u32],
    cells: &mut [u32],
    mark: &mut u64,
    count: u64,
)
    requires measures { IsMeasured a shape from × (padded_of shape from ≤ length source.now) }
    requires measures_2 { IsMeasured b shape to × (padded_of shape to ≤ length cells.old) }
    requires count_bound { mark.old + count ≤ padded_of shape to }
    ensures { memory cells.new mark.new ≡ apply_all (stores (value_of shape from to source.now) mark.old count) (memory cells.old mark.old) }
{
    let read = Tiled {
        sizes: &shape.sizes[..shape.rank],
        order: &a.order[..shape.rank],
        lens: &from.tile_len[..from.tiles],
        entries: &from.tile,
        dims: &a.dims[..a.extent.len],
        multipliers: &[],
    };
    let filled = Tiled {
        sizes: &shape.sizes[..shape.rank],
        order: &b.order[..shape.rank],
        lens: &to.tile_len[..to.tiles],
        entries: &to.tile,
        dims: &b.dims[..b.extent.len],
        multipliers: &[],
    };
    let retiling = Retiling {
        from: read,
        to: filled,
    };
    run::run(&retiling, source, cells, mark, count);
}

// Settles as many cells from the mark on as the allowance and the padded size leave, in offset order of the destination.
pub fn retile(
    shape: Shape,
    from: Layout,
    to: Layout,
    source: &[u32],
    cells: &mut [u32],
    mark: &mut u64,
    allowance: u64,
) -> Result<u64, Refusal>
    ensures { (retiled_answer result ≡ retile_answer shape from to source.now (memory cells.old mark.old) allowance) × (memory cells.new mark.new ≡ retile_left shape from to source.now (memory cells.old mark.old) allowance) }
{
    let (a, b) = sides::both(sides::side_of(shape, from), sides::side_of(shape, to))?;
    sides::judge_mark(a.extent, b.extent, source.len(), cells.len(), *mark)?;
    let count = allowance.min(b.extent.padded - *mark);
    settle_in(shape, from, a, to, b, source, cells, mark, count);
    Ok(count)
}
