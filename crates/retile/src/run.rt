// A run: the values of some cells are read, then settled one store to a step, and so on. Inner functions.
ghost use Rattle.std.specs.Prelude.{◌≡◌, ◌+◌, ◌≤◌, length};
ghost use Rattle.retile.specs.Stores.{memory, apply_all, stores};
ghost use Rattle.retile.specs.Retiling.{value_between, padded_from, padded_to, RowsOf};

use super::retiling::Retiling;
use super::{along, stores, values};
use along::Along;

// So many values are read before they are stored.
const AHEAD: u64 = 256;

// Settles count cells from the mark on, part by part: values are read along the rows, then stored.
fn settle_parts(
    s: &Retiling,
    g: Along,
    ptable: &[u64],
    qtable: &[u64],
    source: &[u32],
    cells: &mut [u32],
    mark: &mut u64,
    count: u64,
)
    requires along { RowsOf g s.now ptable.now qtable.now }
    requires source_room { padded_from s.now ≤ length source.now }
    requires cells_room { padded_to s.now ≤ length cells.old }
    requires count_bound { mark.old + count ≤ padded_to s.now }
    ensures { memory cells.new mark.new ≡ apply_all (stores (value_between s.now source.now) mark.old count) (memory cells.old mark.old) }
{
    let end = *mark + count;
    let mut ahead = [0u32; 256];
    // A `while`: the step varies, with the last part shorter than the others.
    while *mark < end {
        let o = *mark;
        let n = AHEAD.min(end - o) as usize;
        values::values_into(s, g, ptable, qtable, source, o, &mut ahead[..n]);
        stores::settle(&ahead[..n], 2 * n, cells, mark);
    }
}

// Settles count cells from the mark on. No multipliers are lent: a row divides only where it begins.
pub fn run(s: &Retiling, source: &[u32], cells: &mut [u32], mark: &mut u64, count: u64)
    requires source_room { padded_from s.now ≤ length source.now }
    requires cells_room { padded_to s.now ≤ length cells.old }
    requires count_bound { mark.old + count ≤ padded_to s.now }
    ensures { memory cells.new mark.new ≡ apply_all (stores (value_between s.now source.now) mark.old count) (memory cells.old mark.old) }
{
    let mut ptable = [0u64; 128];
    let mut qtable = [0u64; 128];
    let g = along::rows_of(s, count, AHEAD, &mut ptable, &mut qtable);
    settle_parts(s, g, &ptable, &qtable, source, cells, mark, count);
}
