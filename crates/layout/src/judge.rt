// Judging a shape and a layout: refusals 1, 3 and 4, and 2 for a cell limit.
ghost use Rattle.std.specs.Prelude.{◌≡◌, ◌≤◌, ◌*◌, length};
ghost use Rattle.refusal.specs.Judge.{judge};
ghost use Rattle.shape.specs.Shape.{max_rank};
ghost use Rattle.tiling.specs.Tile.{max_tiles, max_entries};
ghost use Rattle.layout.specs.Layout.{are_tiles, good_layout, layout_from, layout_rules};
ghost use Rattle.layout.specs.Answers.{fit_rules};

use super::{Layout, parts};
use refusal::Refusal;
use shape::Shape;

// Each tile keeps its rule, on rank dimensions before the first.
fn good_tiles(rank: usize, lens: &[usize], flat: &[u64]) -> bool
    requires { (rank ≤ max_rank) × (length lens.now ≤ max_tiles) × (length flat.now ≡ max_entries * max_tiles) }
    ensures { result ≡ are_tiles rank lens.now flat.now }
{
    let mut n = rank;
    for (l, m) in lens.iter().enumerate() {
        if *m < 1 || super::MAX_ENTRIES < *m || n < *m {
            return false;
        }
        let a = super::MAX_ENTRIES * l;
        if !radix::within(&flat[a..a + *m], super::MAX_ENTRY) {
            return false;
        }
        n += *m;
    }
    true
}

// The layout of these parts keeps its rule, for shapes of this rank.
pub fn good_parts(
    rank: usize,
    n: usize,
    m: &[u64],
    tiles: usize,
    lens: &[usize],
    flat: &[u64],
) -> bool
    requires { (length m.now ≡ max_rank) × (length lens.now ≡ max_tiles) × (length flat.now ≡ max_entries * max_tiles) }
    ensures { result ≡ good_layout rank (layout_from n m.now tiles lens.now flat.now) }
{
    if n != rank || shape::MAX_RANK < n || super::MAX_TILES < tiles {
        return false;
    }
    shape::is_permutation(&m[..n]) && good_tiles(n, &lens[..tiles], flat)
}

// The layout keeps its rule, for shapes of this rank.
pub fn good_layout(rank: usize, layout: Layout) -> bool
    ensures { result ≡ good_layout rank layout }
{
    good_parts(
        rank,
        layout.rank,
        &layout.minor_to_major,
        layout.tiles,
        &layout.tile_len,
        &layout.tile,
    )
}

// The rules of a shape and a layout: 1, 3, 4.
pub fn judge_layout(shape: Shape, layout: Layout) -> Result<(), Refusal>
    ensures { result ≡ judge (layout_rules shape layout) }
{
    let mut order = [0u64; 6];
    let mut dims = [0u64; 24];
    parts::measure(
        shape,
        layout.rank,
        &layout.minor_to_major,
        layout.tiles,
        &layout.tile_len,
        &layout.tile,
        &mut order,
        &mut dims,
    )?;
    Ok(())
}

// The same with a cell limit: 1, 2, 3, 4.
pub fn judge_fit(shape: Shape, layout: Layout, limit: u64) -> Result<(), Refusal>
    ensures { result ≡ judge (fit_rules shape layout limit) }
{
    if !shape::good_shape(shape) {
        return Err(Refusal::ShapeLimits);
    }
    if limit < 1 || radix::MAX_COUNT < limit {
        return Err(Refusal::Attribute);
    }
    judge_layout(shape, layout)
}
