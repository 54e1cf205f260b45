// The calls on tables of offsets for a benchmark: a shape and layouts are read from rows of numbers and handed to the
// library.
#![tactic(auto)]

use bench_rows::{ROW, layout_of, shape_of};
use layout::Layout;
use offset_table::Finding;

// The number for a refused call, above any place and any finding.
const REFUSED: u64 = 1000;

// The layouts of the rows, as many as there are whole rows, up to 64.
fn layouts_of(rows: &[u64]) -> [Layout; 64] {
    let mut layouts = [layout_of(rows); 64];
    for (layout, row) in layouts.iter_mut().zip(rows.chunks_exact(ROW)) {
        *layout = layout_of(row);
    }
    layouts
}

// What is found in a table of the shape of a row: 0 for sound, 1 for outside, 2 for shared, 1,000 for refused.
#[unsafe(no_mangle)]
pub extern "C" fn judge_any(row: &[u64], table: &[u64], padded: u64) -> u64 {
    match offset_table::judge_table(shape_of(row), table, padded) {
        Ok(Finding::Sound) => 0,
        Ok(Finding::Outside(_)) => 1,
        Ok(Finding::Shared(_, _)) => 2,
        Err(_) => REFUSED,
    }
}

// Which of the first layouts of the rows makes a table of the first row's shape: its place, or 1,000 for refused.
#[unsafe(no_mangle)]
pub extern "C" fn which_any(rows: &[u64], table: &[u64], padded: u64, count: usize) -> u64 {
    let shape = shape_of(rows);
    let layouts = layouts_of(rows);
    match offset_table::layout_of_table(shape, table, padded, layouts, count) {
        Ok(place) => place as u64,
        Err(_) => REFUSED,
    }
}
