// The retile call for a benchmark: a shape and two layouts are read from two rows of numbers and handed to the library.
#![tactic(auto)]

use bench_rows::{ROW, layout_of, shape_of};

// The number for rows or a mark that are too short.
const SHORT: u64 = 9;

// Re-tiles by the source's row and the destination's after it, and hands back 0 or the refusal's number.
// The mark is the first place of mark; how many cells were settled goes to the second.
#[unsafe(no_mangle)]
pub extern "C" fn retile_any(
    rows: &[u64],
    source: &[u32],
    cells: &mut [u32],
    mark: &mut [u64],
    allowance: u64,
) -> u64 {
    if rows.len() < 2 * ROW || mark.len() < 2 {
        return SHORT;
    }
    let shape = shape_of(rows);
    let from = layout_of(rows);
    let to = layout_of(&rows[ROW..]);
    match retile::retile(shape, from, to, source, cells, &mut mark[0], allowance) {
        Ok(n) => {
            mark[1] = n;
            0
        }
        Err(r) => refusal::number(r),
    }
}

// The rows without re-tiling: what reading them costs.
#[unsafe(no_mangle)]
pub extern "C" fn read_rows(rows: &[u64]) -> u64 {
    if rows.len() < 2 * ROW {
        return SHORT;
    }
    let shape = shape_of(rows);
    let from = layout_of(rows);
    let to = layout_of(&rows[ROW..]);
    let size = shape.sizes[0];
    let a = from.tile[0];
    let b = to.tile[0];
    if size < a || size < b { size } else { a.min(b) }
}
