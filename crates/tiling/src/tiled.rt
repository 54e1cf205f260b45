// A shape, an order and tiles that break no rule, as lists, with what their offsets are reckoned by.
ghost use Rattle.std.specs.Prelude.{◌≡◌};
ghost use Rattle.reciprocal.specs.Multiplier.{AreMultipliers};
ghost use Rattle.tiling.specs.Ready.{Ready};
ghost use Rattle.tiling.specs.Single.{props};
ghost use Rattle.tiling.specs.Tile.{physical, tiles_from};

// The sizes; the order, major first; the tiles by their lengths and their entries, six places to a tile; the physical shape; and the multipliers
// to divide by, as many as are lent.
#[derive(Clone, Copy)]
pub struct Tiled<'a> {
    pub sizes: &'a [u64],
    pub order: &'a [u64],
    pub lens: &'a [usize],
    pub entries: &'a [u64],
    pub dims: &'a [u64],
    pub multipliers: &'a [u64],
    ghost ready: { Ready sizes.now order.now lens.now entries.now } by { Prim.hlevel props },
    ghost same: { dims.now ≡ physical sizes.now order.now (tiles_from lens.now entries.now) },
    ghost divides: { AreMultipliers multipliers.now },
}
