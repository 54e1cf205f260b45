// The physical shape and the physical index of a layout, tile by tile.
ghost use Rattle.std.specs.Prelude.{◌≡◌, ◌+◌, ◌*◌, ◌<◌, ◌≤◌, length, take, drop};
ghost use Rattle.radix.specs.Radix.{prod, Sizes, Bounded, In};
ghost use Rattle.shape.specs.Shape.{max_rank};
ghost use Rattle.tiling.specs.Tile.{tile_dims, tile_index, gather, reversed, index_of, physical, offset, offset_at};
ghost use Rattle.tiling.specs.Tile.{max_tiles, max_entries, max_entry, max_physical, tiles_from};
ghost use Rattle.reciprocal.specs.Multiplier.{AreMultipliers};
ghost use Rattle.tiling.specs.Ready.{Under, Levels, IsPhysical};
ghost use Rattle.tiling.specs.Tiled.{tiles_in};

use super::tiled::Tiled;
use reciprocal::inner;

// A physical shape or index: at most 24 numbers, major first.
#[derive(Clone, Copy)]
pub struct Physical {
    pub len: usize,
    pub at: [u64; 24],
}

// The shape in the first len places of at, tiled by ts in place: ceilings where the sizes stood, the entries after them.
fn tile_dims(at: &mut [u64], len: usize, ts: &[u64])
    requires ts_len_bound { (length ts.now ≤ len) × (len + length ts.now ≤ length at.old) }
    requires bounded { Bounded max_entry ts.now }
    ensures { take (len + length ts.now) at.new ≡ tile_dims ts.now (take len at.old) }
{
    let k = len - ts.len();
    for (j, t) in ts.iter().enumerate() {
        at[k + j] = at[k + j].div_ceil(*t);
        at[len + j] = *t;
    }
}

// The index in the first len places of at, tiled by ts in place: quotients where the entries stood, remainders after them.
fn tile_index(at: &mut [u64], len: usize, ts: &[u64], m: &[u64])
    requires are_multipliers { AreMultipliers m.now }
    requires ts_len_bound { (length ts.now ≤ len) × (len + length ts.now ≤ length at.old) }
    requires bounded { Bounded max_entry ts.now }
    ensures { take (len + length ts.now) at.new ≡ tile_index ts.now (take len at.old) }
{
    let k = len - ts.len();
    for (j, t) in ts.iter().enumerate() {
        let d = inner::divide(at[k + j], *t, m);
        at[k + j] = d.quotient;
        at[len + j] = d.remainder;
    }
}

// minor_to_major read from its end, at the front of out.
pub fn reverse_into(m: &[u64], out: &mut [u64])
    requires { length m.now ≤ length out.old }
    ensures { take (length m.now) out.new ≡ reversed m.now }
{
    let n = m.len();
    for i in 0..n {
        out[i] = m[n - 1 - i];
    }
}

// What stands in xs at the places p, at the front of out.
fn gather_into(p: &[u64], xs: &[u64], out: &mut [u64])
    requires p_in_bounds { length p.now ≤ length out.old }
    requires under { Under (length xs.now) p.now }
    ensures { take (length p.now) out.new ≡ gather p.now xs.now }
{
    for (i, j) in p.iter().enumerate() {
        out[i] = xs[*j as usize];
    }
}

// The n entries of tile l; there are six places to a tile.
pub fn entries(flat: &[u64], l: usize, n: usize) -> &[u64]
    requires { max_entries * l + n ≤ length flat.now }
    ensures value { result.now ≡ take n (drop (max_entries * l) flat.now) }
    ensures len { length result.now ≡ n }
{
    let a = 6 * l;
    &flat[a..a + n]
}

// The physical shape, at the front of at, and its length: the sizes in the order p, and each tile on that.
pub fn dims_into(sizes: &[u64], p: &[u64], lens: &[usize], flat: &[u64], at: &mut [u64]) -> usize
    requires p_len_bound { (length p.now ≤ max_rank) × (length lens.now ≤ max_tiles) × (length at.old ≡ max_physical) }
    requires under { Under (length sizes.now) p.now }
    requires sizes { Sizes sizes.now }
    requires levels { Levels lens.now flat.now (length p.now) }
    ensures { (result ≤ max_physical) × (take result at.new ≡ physical sizes.now p.now (tiles_from lens.now flat.now)) }
{
    gather_into(p, sizes, at);
    let mut len = p.len();
    for (l, n) in lens.iter().enumerate() {
        tile_dims(at, len, entries(flat, l, *n));
        len += *n;
    }
    len
}

// The physical shape.
pub fn physical_dims(sizes: &[u64], p: &[u64], lens: &[usize], flat: &[u64]) -> Physical
    requires p_len_bound { (length p.now ≤ max_rank) × (length lens.now ≤ max_tiles) }
    requires under { Under (length sizes.now) p.now }
    requires sizes { Sizes sizes.now }
    requires levels { Levels lens.now flat.now (length p.now) }
    ensures { IsPhysical result (physical sizes.now p.now (tiles_from lens.now flat.now)) }
{
    let mut at = [0u64; 24];
    let len = dims_into(sizes, p, lens, flat, &mut at);
    Physical { len, at }
}

// The physical index of a point, at the front of at, and its length: its coordinates in the order p, and each tile on that.
fn index_into(
    point: &[u64],
    p: &[u64],
    lens: &[usize],
    flat: &[u64],
    at: &mut [u64],
    m: &[u64],
) -> usize
    requires are_multipliers { AreMultipliers m.now }
    requires p_len_bound { (length p.now ≤ max_rank) × (length lens.now ≤ max_tiles) × (length at.old ≡ max_physical) }
    requires under { Under (length point.now) p.now }
    requires levels { Levels lens.now flat.now (length p.now) }
    ensures { (result ≤ max_physical) × (take result at.new ≡ index_of (tiles_from lens.now flat.now) (gather p.now point.now)) }
{
    gather_into(p, point, at);
    let mut len = p.len();
    for (l, n) in lens.iter().enumerate() {
        tile_index(at, len, entries(flat, l, *n), m);
        len += *n;
    }
    len
}

impl<'a> Tiled<'a> {
    // The offset of a point.
    pub fn offset_at(&self, point: &[u64]) -> u64
        requires { In point.now self.now.sizes.now }
        ensures { result ≡ offset_at self.now.sizes.now self.now.order.now (tiles_in self.now) point.now }
    {
        let mut at = [0u64; 24];
        let n = index_into(
            point,
            self.order,
            self.lens,
            self.entries,
            &mut at,
            self.multipliers,
        );
        radix::row_major(self.dims, &at[..n])
    }

    // The offset of element number n.
    pub fn offset(&self, n: u64) -> u64
        requires { n < prod self.now.sizes.now }
        ensures { result ≡ offset self.now.sizes.now self.now.order.now (tiles_in self.now) n }
    {
        let mut point = [0u64; 6];
        radix::digits_into(self.sizes, n, &mut point);
        self.offset_at(&point[..self.sizes.len()])
    }
}
