// The loops over the elements, from the lists of a shape and a layout. Inner functions.
ghost use Rattle.std.specs.Prelude.{◌≡◌, ◌≤◌, length};
ghost use Rattle.radix.specs.Radix.{prod};
ghost use Rattle.tiling.specs.Tile.{padded};
ghost use Rattle.tiling.specs.Tiled.{tiles_in};
ghost use Rattle.pack.specs.Pack.{packed, unpacked};
ghost use Rattle.pack.specs.Rows.{HasRoomFor, CarriedBy, start_of};

use super::{rows, runs, table};
use tiling::Tiled;

// Fewer elements than this go along a table of all their offsets.
const FEW: u64 = 64;

// From so many elements on the long table and the multipliers are worth their making.
const MANY: u64 = 4096;

// 0 in the first size places, where there are fewer elements: what is not padding is written later.
fn clear_padding(cells: &mut [u32], count: u64, size: u64)
    requires { size ≤ length cells.old }
    ensures { cells.new ≡ start_of count size cells.old }
{
    if count < size {
        cells[..size as usize].fill(0);
    }
}

// Packs or unpacks in rows with a short table, dividing plainly.
fn in_short_rows(packs: bool, t: &Tiled, from: &[u32], to: &mut [u32])
    requires has_room { HasRoomFor t.now packs from.now to.old }
    ensures { CarriedBy t.now packs from.now to.old to.new }
{
    let mut table = [0u64; 64];
    rows::carry_with(packs, t, &mut table, from, to);
}

// Packs or unpacks in rows with a table of 1,024 offsets, dividing by the multipliers. Always a call, so that its arrays stand in no other frame.
#[inline(never)]
fn in_long_rows(packs: bool, t: &Tiled, from: &[u32], to: &mut [u32])
    requires has_room { HasRoomFor t.now packs from.now to.old }
    ensures { CarriedBy t.now packs from.now to.old to.new }
{
    let m = reciprocal::inner::multipliers();
    let t = Tiled {
        sizes: t.sizes,
        order: t.order,
        lens: t.lens,
        entries: t.entries,
        dims: t.dims,
        multipliers: &m.at,
    };
    let mut table = [0u64; 1024];
    rows::carry_with(packs, &t, &mut table, from, to);
}

// Packs or unpacks along a table of the offsets of all elements.
#[inline(always)]
fn by_table(packs: bool, t: &Tiled, count: u64, from: &[u32], to: &mut [u32])
    requires count_value { (count ≡ prod t.now.sizes.now) × (count ≤ 64) }
    requires has_room { HasRoomFor t.now packs from.now to.old }
    ensures { CarriedBy t.now packs from.now to.old to.new }
{
    let mut table = [0u64; 64];
    let n = count as usize;
    table::offsets_into(t, n, &mut table);
    runs::carry_row(packs, from, 0, &table[..n], 1, 0, to);
}

// Every element to its cell, in packing, or from it: the only one is in cell 0, few go along a table of all their offsets, more of them in rows.
#[inline(always)]
fn carry(packs: bool, t: &Tiled, count: u64, from: &[u32], to: &mut [u32])
    requires count_value { count ≡ prod t.now.sizes.now }
    requires has_room { HasRoomFor t.now packs from.now to.old }
    ensures { CarriedBy t.now packs from.now to.old to.new }
{
    if count == 1 {
        to[0] = from[0];
        return;
    }
    if count < FEW {
        by_table(packs, t, count, from, to);
        return;
    }
    if count < MANY {
        in_short_rows(packs, t, from, to);
    } else {
        in_long_rows(packs, t, from, to);
    }
}

// Every element to its cell, 0 in padding; cells past the padded size stay. count is the element count, size the padded size.
pub fn pack_in(t: &Tiled, count: u64, size: u64, source: &[u32], cells: &mut [u32])
    requires count_value { (count ≡ prod t.now.sizes.now) × (size ≡ padded t.now.sizes.now t.now.order.now (tiles_in t.now)) }
    requires sizes_in_bounds { (prod t.now.sizes.now ≤ length source.now) × (padded t.now.sizes.now t.now.order.now (tiles_in t.now) ≤ length cells.old) }
    ensures { cells.new ≡ packed t.now.sizes.now t.now.order.now (tiles_in t.now) source.now cells.old }
{
    clear_padding(cells, count, size);
    carry(true, t, count, source, cells);
}

// Every element from its cell; places past the element count stay. count is the element count.
pub fn unpack_in(t: &Tiled, count: u64, cells: &[u32], destination: &mut [u32])
    requires count_value { count ≡ prod t.now.sizes.now }
    requires sizes_in_bounds { (prod t.now.sizes.now ≤ length destination.old) × (padded t.now.sizes.now t.now.order.now (tiles_in t.now) ≤ length cells.now) }
    ensures { destination.new ≡ unpacked t.now.sizes.now t.now.order.now (tiles_in t.now) cells.now destination.old }
{
    carry(false, t, count, cells, destination);
}
