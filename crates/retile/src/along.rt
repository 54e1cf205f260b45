// Rows of cells along one dimension: which dimension, the offsets of its first coordinates on both sides, and how long a row is. Inner functions.
ghost use Rattle.std.specs.Prelude.{◌≡◌, ℕ, suc, ◌*◌, ◌<◌, ◌≤◌, length, get_or, drop};
ghost use Rattle.radix.specs.Radix.{max_count, prod};
ghost use Rattle.tiling.specs.Tile.{offset};
ghost use Rattle.tiling.specs.Tiled.{tiles_in};
ghost use Rattle.retile.specs.Retiling.{RowsOf};
ghost use Rattle.retile.specs.Rows.{IsRow};

use super::retiling::Retiling;
use tiling::Tiled;

// From so many cells on the tables of a row are worth their making.
const MANY: u64 = 128;

// A dimension, its places in the two orders, its size, how many elements a coordinate spans, and how many coordinates a row has at most.
#[derive(Clone, Copy)]
pub struct Along {
    pub dimension: usize,
    pub from: usize,
    pub to: usize,
    pub size: u64,
    pub span: u64,
    pub wide: usize,
}

// The offsets of the first coordinates of a dimension, as many as are below the limit and find room; how many there are.
fn near_offsets(t: &Tiled, dimension: usize, limit: u64, table: &mut [u64]) -> usize
    requires dimension_in_bounds { (dimension < length t.now.sizes.now) × (0 < limit) × (0 < length table.old) × (length table.old ≤ max_count) }
    ensures { (0 < result) × (result ≤ length table.old) × ((j : ℕ) → j < result → get_or table.new j 0 ≡ offset t.now.sizes.now t.now.order.now (tiles_in t.now) (j * prod (drop (suc dimension) t.now.sizes.now))) }
{
    let span = radix::product(&t.sizes[dimension + 1..]);
    let count = table.len().min(t.sizes[dimension] as usize);
    for j in 0..count {
        let o = t.offset(j as u64 * span);
        if limit <= o {
            return j;
        }
        table[j] = o;
    }
    count
}

// The dimension with the most coordinates whose offsets are below the limit, in a destination of at least one dimension.
fn nearest_dimension(t: &Tiled, limit: u64, table: &mut [u64]) -> usize
    requires sizes_nonzero { (0 < length t.now.sizes.now) × (0 < limit) × (0 < length table.old) × (length table.old ≤ max_count) }
    ensures { result < length t.now.sizes.now }
{
    let mut best = 0;
    let mut most = 0;
    for place in t.order.iter().rev() {
        let d = *place as usize;
        let n = near_offsets(t, d, limit, table);
        if most < n {
            best = d;
            most = n;
        }
        if most == table.len() {
            return best;
        }
    }
    best
}

// The rows of a re-tiling of cells that lie below the limit: along which dimension, with the tables of its offsets on both sides.
fn along_of(s: &Retiling, limit: u64, ptable: &mut [u64], qtable: &mut [u64]) -> Along
    requires sizes_nonzero { (0 < length s.now.from.sizes.now) × (0 < limit) × (0 < length ptable.old) × (length ptable.old ≤ max_count) × (0 < length qtable.old) × (length qtable.old ≤ max_count) }
    ensures { RowsOf result s.now ptable.new qtable.new }
{
    let d = nearest_dimension(&s.to, limit, qtable);
    let b = near_offsets(&s.to, d, limit, qtable);
    let a = near_offsets(&s.from, d, radix::ABOVE_COUNT, ptable);
    Along {
        dimension: d,
        from: shape::place_of(s.from.order, d as u64),
        to: shape::place_of(s.to.order, d as u64),
        size: s.from.sizes[d],
        span: radix::product(&s.from.sizes[d + 1..]),
        wide: a.min(b),
    }
}

// The rows of a run of count cells, of which so many are read at once: single cells where there are few, or no dimension.
pub fn rows_of(
    s: &Retiling,
    count: u64,
    ahead: u64,
    ptable: &mut [u64],
    qtable: &mut [u64],
) -> Along
    requires ahead_nonzero { (0 < ahead) × (0 < length ptable.old) × (length ptable.old ≤ max_count) × (0 < length qtable.old) × (length qtable.old ≤ max_count) }
    ensures { RowsOf result s.now ptable.new qtable.new }
{
    if !s.from.sizes.is_empty() && MANY <= count {
        return along_of(s, ahead, ptable, qtable);
    }
    ptable[0] = 0;
    qtable[0] = 0;
    Along {
        dimension: 0,
        from: 0,
        to: 0,
        size: 1,
        span: 1,
        wide: 1,
    }
}

// How many coordinates a row has from element n on: as many as both sides reach.
pub fn row_length(s: &Retiling, g: Along, n: u64, ptable: &[u64], qtable: &[u64]) -> usize
    requires along { RowsOf g s.now ptable.now qtable.now × (n < prod s.now.from.sizes.now) }
    ensures { IsRow s.now.from.sizes.now s.now.from.order.now (tiles_in s.now.from) s.now.to.order.now (tiles_in s.now.to) g.span g.wide n result }
{
    let wide = g.wide as u64;
    if wide == 1 {
        return 1;
    }
    let c = (n / g.span) % g.size;
    let most = wide.min(g.size - c);
    let a = s.from.row_reach(g.from, c, most);
    let b = s.to.row_reach(g.to, c, most);
    a.most.min(b.most) as usize
}
