// Runs of cells from a cell on: how far its digits only grow, and how far padding goes on. Inner functions.
ghost use Rattle.std.specs.Prelude.{◌≡◌, ◌<◌, ◌≤◌};
ghost use Rattle.radix.specs.Radix.{max_count, prod, Sizes};
ghost use Rattle.tiling.specs.Cell.{cell, padding};
ghost use Rattle.tiling.specs.Runs.{rest_of, PaddingRun};
ghost use Rattle.tiling.specs.Tile.{padded};
ghost use Rattle.tiling.specs.Tiled.{tiles_in};

use super::tiled::Tiled;

// How many cells from k on have digits over dims that are all at least those of k.
pub fn rest_of(dims: &[u64], k: u64) -> u64
    requires dims_bound { (prod dims.now ≤ max_count) × (k < prod dims.now) }
    requires sizes { Sizes dims.now }
    ensures { result ≡ rest_of dims.now k }
{
    let mut span: u64 = 1;
    let mut q = k;
    for i in (0..dims.len()).rev() {
        let d = dims[i];
        let e = q % d;
        if 0 < e {
            return (d - e) * span;
        }
        q /= d;
        span *= d;
    }
    span
}

impl<'a> Tiled<'a> {
    // How many cells from the padding cell k on are known to be padding, at least 1.
    pub fn padding_run(&self, k: u64) -> u64
        requires k_bound { k < padded self.now.sizes.now self.now.order.now (tiles_in self.now) }
        requires k_value { cell self.now.sizes.now self.now.order.now (tiles_in self.now) k ≡ padding }
        ensures { PaddingRun self.now.sizes.now self.now.order.now (tiles_in self.now) k result }
    {
        let mut point = [0u64; 6];
        self.candidate_into(k, &mut point);
        if radix::inside(&point[..self.sizes.len()], self.sizes) {
            return 1;
        }
        rest_of(self.dims, k)
    }
}
