// The values of cells of the destination, read from the source row by row. Inner functions.
ghost use Rattle.std.specs.Prelude.{◌≡◌, ℕ, ◌+◌, ◌<◌, ◌≤◌, length, get_or};
ghost use Rattle.radix.specs.Radix.{max_count, tab};
ghost use Rattle.retile.specs.Retiling.{value_between, padded_from, padded_to, RowsOf};
ghost use Rattle.retile.specs.Rows.{Right, Fills};

use super::along;
use super::retiling::Retiling;
use along::Along;

// A row from place i on: the values of the source from k on, by the table of the source, to the places by the table of the destination, as far as there are such places.
fn fill_row(
    source: &[u32],
    k: u64,
    ptable: &[u64],
    qtable: &[u64],
    i: usize,
    values: &mut [u32],
    filled: &mut [u8],
)
    requires ptable_len { (length ptable.now ≡ length qtable.now) × (0 < length qtable.now) × (get_or qtable.now 0 0 ≡ 0) × (i < length values.old) × (length values.old ≤ length filled.old) × (i < max_count) }
    requires by_index { ((j : ℕ) → j < length ptable.now → (k + get_or ptable.now j 0 < length source.now) × (k + get_or ptable.now j 0 < max_count)) × ((j : ℕ) → j < length qtable.now → get_or qtable.now j 0 ≤ max_count) }
    ensures { ((f : ℕ → ℕ) → ((j : ℕ) → j < length qtable.now → f (i + get_or qtable.now j 0) ≡ get_or source.now (k + get_or ptable.now j 0) 0) → Right f values.old filled.old → Right f values.new filled.new) × Fills i filled.old filled.new }
{
    for (from, to) in ptable.iter().zip(qtable) {
        let x = i + *to as usize;
        if values.len() <= x {
            return;
        }
        values[x] = source[(k + *from) as usize];
        filled[x] = 1;
    }
}

// 0 in so many places from place i on, as far as there are such places.
fn fill_padding(count: u64, i: usize, values: &mut [u32], filled: &mut [u8])
    requires { (0 < count) × (i < length values.old) × (length values.old ≤ length filled.old) }
    ensures { ((f : ℕ → ℕ) → ((j : ℕ) → j < count → i + j < length values.old → f (i + j) ≡ 0) → Right f values.old filled.old → Right f values.new filled.new) × Fills i filled.old filled.new }
{
    let end = i + count.min((values.len() - i) as u64) as usize;
    values[i..end].fill(0);
    filled[i..end].fill(1);
}

// The row from the cell at place i on, counted from cell o: that of its element along the dimension, or padding.
fn fill_from(
    s: &Retiling,
    g: Along,
    ptable: &[u64],
    qtable: &[u64],
    source: &[u32],
    o: u64,
    i: usize,
    values: &mut [u32],
    filled: &mut [u8],
)
    requires source_room { padded_from s.now ≤ length source.now }
    requires part { o + length values.old ≤ padded_to s.now }
    requires along { RowsOf g s.now ptable.now qtable.now }
    requires i_in_bounds { (i < length values.old) × (length values.old ≤ length filled.old) }
    ensures { (Right (λ x. value_between s.now source.now (o + x)) values.old filled.old → Right (λ x. value_between s.now source.now (o + x)) values.new filled.new) × Fills i filled.old filled.new }
{
    let at = o + i as u64;
    match s.to.cell(at) {
        Some(n) => {
            let k = s.from.offset(n);
            let r = along::row_length(s, g, n, ptable, qtable);
            fill_row(source, k, &ptable[..r], &qtable[..r], i, values, filled);
        }
        None => {
            let r = s.to.padding_run(at);
            fill_padding(r, i, values, filled);
        }
    }
}

// The values of the cells from o on, one to a place: a place that no row before it has filled begins a row.
pub fn values_into(
    s: &Retiling,
    g: Along,
    ptable: &[u64],
    qtable: &[u64],
    source: &[u32],
    o: u64,
    values: &mut [u32],
)
    requires source_room { padded_from s.now ≤ length source.now }
    requires part { o + length values.old ≤ padded_to s.now }
    requires along { RowsOf g s.now ptable.now qtable.now }
    requires values_len_bound { length values.old ≤ 256 }
    ensures { values.new ≡ tab (λ x. value_between s.now source.now (o + x)) (length values.old) }
{
    let mut filled = [0u8; 256];
    for i in 0..values.len() {
        if filled[i] != 1 {
            fill_from(s, g, ptable, qtable, source, o, i, values, &mut filled);
        }
    }
}
