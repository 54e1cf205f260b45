// Comparing layouts as written: the order and the tiles, up to their counts.
ghost use Rattle.std.specs.Prelude.{◌≡◌, true, ◌*◌, ◌≤◌, length};
ghost use Rattle.radix.specs.Radix.{Upto};
ghost use Rattle.tiling.specs.Tile.{max_tiles, max_entries, tiles_from};
ghost use Rattle.layout.specs.Layout.{good_layout};
ghost use Rattle.route.specs.Same.{same_tiles, same_layout};

use layout::Layout;

// Two lists of tiles are the same, each as its lengths and its entries, six places to a tile.
fn same_tiles(lens: &[usize], flat: &[u64], lens2: &[usize], flat2: &[u64]) -> bool
    requires lens_len_bound { (length lens.now ≤ max_tiles) × (length flat.now ≡ max_entries * max_tiles) × (length flat2.now ≡ max_entries * max_tiles) }
    requires upto { Upto max_entries lens.now }
    requires upto_2 { Upto max_entries lens2.now }
    ensures { result ≡ same_tiles (tiles_from lens.now flat.now) (tiles_from lens2.now flat2.now) }
{
    if lens.len() != lens2.len() {
        return false;
    }
    for l in 0..lens.len() {
        let a = layout::MAX_ENTRIES * l;
        let e = a + lens[l];
        let o = a + lens2[l];
        if flat[a..e] != flat2[a..o] {
            return false;
        }
    }
    true
}

// Two layouts that keep their rule, for shapes of this rank, are the same as written.
pub fn same_layout(rank: usize, a: Layout, b: Layout) -> bool
    requires { (good_layout rank a ≡ true) × (good_layout rank b ≡ true) }
    ensures { result ≡ same_layout a b }
{
    a.minor_to_major[..rank] == b.minor_to_major[..rank]
        && same_tiles(
            &a.tile_len[..a.tiles],
            &a.tile,
            &b.tile_len[..b.tiles],
            &b.tile,
        )
}
