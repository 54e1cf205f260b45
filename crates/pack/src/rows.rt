// Packing and unpacking in rows: a table holds the offsets of the first elements, and the offset of an element of a row
// is that of the row's first element plus that of its place in the row. Inner functions.
ghost use Rattle.std.specs.Prelude.{◌≡◌, ◌+◌, ◌*◌, ◌<◌, ◌≤◌, length, take};
ghost use Rattle.tiling.specs.Tiled.{tiles_in};
ghost use Rattle.pack.specs.Rows.{HasRoomFor, CarriedBy, IsCut, IsRow, offsets_of};

use super::{cut, runs, table};
use cut::Cut;
use tiling::Tiled;

// How many steps a row has from step q on.
fn row_steps(t: &Tiled, g: Cut, q: u64) -> u64
    requires cut { IsCut g t.now.sizes.now t.now.order.now }
    requires q_lt_steps { q < g.steps }
    ensures { IsRow t.now.sizes.now t.now.order.now (tiles_in t.now) g q result }
{
    if t.order.is_empty() {
        return 1;
    }
    let c = q % g.size;
    let most = g.wide.min(g.size - c);
    t.row_reach(g.place, c, most).most
}

// Every element to its cell, in packing, or from it, row by row; the table has the offsets of the widest row.
fn carry_rows(packs: bool, t: &Tiled, g: Cut, table: &[u64], from: &[u32], to: &mut [u32])
    requires has_room { HasRoomFor t.now packs from.now to.old }
    requires cut { IsCut g t.now.sizes.now t.now.order.now × (table.now ≡ offsets_of t.now (g.wide * g.span)) }
    ensures { CarriedBy t.now packs from.now to.old to.new }
{
    let run = runs::run_length(table);
    let mut q: u64 = 0;
    // A `while`: a row has as many steps as the tiles leave room for.
    while q < g.steps {
        let r = row_steps(t, g, q);
        let n = q * g.span;
        let base = t.offset(n);
        let len = (r * g.span) as usize;
        runs::carry_row(packs, from, n as usize, &table[..len], run, base, to);
        q += r;
    }
}

// Packing or unpacking with a lent table and multipliers.
pub fn carry_with(packs: bool, t: &Tiled, table: &mut [u64], from: &[u32], to: &mut [u32])
    requires has_room { HasRoomFor t.now packs from.now to.old }
    requires table_nonzero { (0 < length table.old) × (length table.old ≤ 1024) }
    ensures { CarriedBy t.now packs from.now to.old to.new }
{
    let g = cut::cut_of(t.sizes, t.order, table.len() as u64);
    let n = (g.wide * g.span) as usize;
    table::offsets_into(t, n, table);
    carry_rows(packs, t, g, &table[..n], from, to);
}
