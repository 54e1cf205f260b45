// How far a row of elements reaches: no tile's remainder carries while its coordinate is moved on. Inner functions.
ghost use Rattle.std.specs.Prelude.{◌≡◌, ◌+◌, ◌/◌, ◌%◌, ◌<◌, ◌≤◌, ◌^◌, length};
ghost use Rattle.radix.specs.Radix.{Bounded};
ghost use Rattle.reciprocal.specs.Multiplier.{max_divisor, AreMultipliers};
ghost use Rattle.shape.specs.Shape.{max_rank};
ghost use Rattle.tiling.specs.Row.{tiled_reach, row_reach};
ghost use Rattle.tiling.specs.Ready.{Levels};
ghost use Rattle.tiling.specs.Tile.{max_tiles, max_entry, max_physical, tiles_from};
ghost use Rattle.tiling.specs.Tiled.{tiles_in};

use super::physical;
use super::tiled::Tiled;
use inner::Divided;
use reciprocal::inner;

// A coordinate at a place of the physical index, in units of scale, and how many a row has at most from it on.
#[derive(Clone, Copy)]
pub struct Reach {
    pub place: usize,
    pub coordinate: u64,
    pub scale: u64,
    pub most: u64,
}

// A coordinate by an entry; below the entry nothing is divided.
fn split(coordinate: u64, t: u64, m: &[u64]) -> Divided
    requires are_multipliers { AreMultipliers m.now }
    requires t_nonzero { (0 < t) × (t ≤ max_divisor) }
    ensures { (result.quotient ≡ coordinate / t) × (result.remainder ≡ coordinate % t) }
{
    if coordinate < t {
        return Divided {
            quotient: 0,
            remainder: coordinate,
        };
    }
    inner::divide(coordinate, t, m)
}

// The reach under the tile ts on n places; m are the multipliers.
fn tiled_reach(f: Reach, n: usize, ts: &[u64], m: &[u64]) -> Reach
    requires are_multipliers { AreMultipliers m.now }
    requires ts_len_bound { (length ts.now ≤ n) × (f.place < n) × (n ≤ max_physical) × (f.scale ≤ 2 ^ 20) }
    requires bounded { Bounded max_entry ts.now }
    ensures { result ≡ tiled_reach ts.now n f }
{
    let k = n - ts.len();
    if f.place < k {
        return f;
    }
    let t = ts[f.place - k];
    let d = split(f.coordinate, t, m);
    if d.remainder == 0 {
        return Reach {
            coordinate: d.quotient,
            scale: f.scale * t,
            ..f
        };
    }
    let left = f.scale * (t - d.remainder);
    Reach {
        place: f.place + ts.len(),
        coordinate: d.remainder,
        most: f.most.min(left),
        ..f
    }
}

// The reach of a row from a coordinate on, of most coordinates at most, at a place of so many; m are the multipliers.
pub fn row_reach(
    rank: usize,
    lens: &[usize],
    flat: &[u64],
    place: usize,
    coordinate: u64,
    most: u64,
    m: &[u64],
) -> Reach
    requires are_multipliers { AreMultipliers m.now }
    requires rank_le_max_rank { (rank ≤ max_rank) × (length lens.now ≤ max_tiles) × (place < rank) }
    requires levels { Levels lens.now flat.now rank }
    ensures { result ≡ row_reach (tiles_from lens.now flat.now) rank place coordinate most }
{
    let mut f = Reach {
        place,
        coordinate,
        scale: 1,
        most,
    };
    let mut n = rank;
    for (l, k) in lens.iter().enumerate() {
        f = tiled_reach(f, n, physical::entries(flat, l, *k), m);
        n += *k;
    }
    f
}

impl<'a> Tiled<'a> {
    // The reach of a row from a coordinate on, of most coordinates at most, at a place of the order.
    pub fn row_reach(&self, place: usize, coordinate: u64, most: u64) -> Reach
        requires { place < length self.now.order.now }
        ensures { result ≡ row_reach (tiles_in self.now) (length self.now.order.now) place coordinate most }
    {
        row_reach(
            self.order.len(),
            self.lens,
            self.entries,
            place,
            coordinate,
            most,
            self.multipliers,
        )
    }
}
