// A table of the offsets of the first elements, made from its front on: a row of coordinates has the entries before it again, with the offset of its first
// element added. Inner functions.
ghost use Rattle.std.specs.Prelude.{◌≡◌, ◌+◌, ◌*◌, ◌<◌, ◌≤◌, ◌^◌, length, get_or, take};
ghost use Rattle.radix.specs.Radix.{prod};
ghost use Rattle.tiling.specs.Tile.{offset};
ghost use Rattle.tiling.specs.Tiled.{tiles_in};
ghost use Rattle.tiling.specs.Row.{row_room};
ghost use Rattle.pack.specs.Rows.{Reaches, Repeated, HasOffsetsOf, IsSpan, offsets_of};

use tiling::Tiled;

// A row of coordinates: the offset of its first element, and how many coordinates it has.
#[derive(Clone, Copy)]
pub struct Row {
    pub base: u64,
    pub steps: u64,
}

// The row from coordinate x on of the dimension at a place of the order, of most coordinates at most: what the row reaches of x adds one product to the offset
// of the rest of x, which the table has.
fn row_from(t: &Tiled, place: usize, span: u64, x: u64, most: u64, table: &[u64]) -> Row
    requires span { IsSpan t.now.sizes.now t.now.order.now place span × (0 < x) × (x < get_or t.now.sizes.now (get_or t.now.order.now place 0) 0) × (x * span ≤ length table.now) }
    requires has_offsets { HasOffsetsOf t.now (x * span) (length table.now) table.now }
    ensures { (result.base ≡ offset t.now.sizes.now t.now.order.now (tiles_in t.now) (x * span)) × (result.steps ≡ row_room (tiles_in t.now) (length t.now.order.now) place x most) }
{
    let f = t.row_reach(place, x, most);
    let rest = ((x - f.coordinate * f.scale) * span) as usize;
    let next = f.place + 1;
    let base = table[rest] + f.coordinate * radix::product(&t.dims[next..]);
    Row {
        base,
        steps: f.most,
    }
}

// The first len entries of the table again from place a on, each with base added.
fn repeat_row(table: &mut [u64], a: usize, len: usize, base: u64)
    requires len_le_a { (len ≤ a) × (a + len ≤ length table.old) }
    requires reaches { Reaches base (take len table.old) (2 ^ 64) }
    ensures { Repeated base a len table.old table.new }
{
    for j in 0..len {
        table[a + j] = base + table[j];
    }
}

// The offsets of all coordinates of the dimension at a place of the order, up to n elements, in a table that has those of its coordinate 0: row by row, each
// at most as long as what the table has.
fn repeat_rows(t: &Tiled, place: usize, span: u64, n: u64, table: &mut [u64])
    requires span { IsSpan t.now.sizes.now t.now.order.now place span × (n ≤ length table.old) }
    requires has_offsets { HasOffsetsOf t.now span n table.old }
    ensures { HasOffsetsOf t.now (get_or t.now.sizes.now (get_or t.now.order.now place 0) 0 * span) n table.new }
{
    let size = t.sizes[t.order[place] as usize];
    let mut x: u64 = 1;
    // A `while`: a row has as many steps as the tiles leave room for.
    while x < size {
        let a = x * span;
        if n <= a {
            return;
        }
        let most = x.min(size - x);
        let row = row_from(t, place, span, x, most, table);
        let len = (row.steps * span).min(n - a);
        repeat_row(table, a as usize, len as usize, row.base);
        x += row.steps;
    }
}

// The offsets of the first n elements, at the front of the table: that of the first is 0, and the dimensions are taken from the last one on.
pub fn offsets_into(t: &Tiled, n: usize, table: &mut [u64])
    requires n_nonzero { (0 < n) × (n ≤ prod t.now.sizes.now) × (n ≤ length table.old) }
    ensures { take n table.new ≡ offsets_of t.now n }
{
    table[0] = 0;
    let count = n as u64;
    let mut span: u64 = 1;
    for k in (0..t.sizes.len()).rev() {
        if count <= span {
            return;
        }
        let size = t.sizes[k];
        if 1 < size {
            let place = shape::place_of(t.order, k as u64);
            repeat_rows(t, place, span, count, table);
            span *= size;
        }
    }
}
