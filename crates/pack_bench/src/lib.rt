// The pack and unpack calls for a benchmark: a shape and a layout are read from a row of numbers and handed to the library.
#![tactic(auto)]

use refusal::Refusal;

mod plain;

use bench_rows::{ROW, layout_of, shape_of};

// The number for a row that is too short.
const SHORT: u64 = 9;

// The number of an answer, 0 for done.
fn number_of(answer: Result<(), Refusal>) -> u64 {
    match answer {
        Ok(()) => 0,
        Err(r) => refusal::number(r),
    }
}

// Packs by the shape and the layout of a row and hands back its number.
#[unsafe(no_mangle)]
pub extern "C" fn pack_any(row: &[u64], source: &[u32], cells: &mut [u32]) -> u64 {
    if row.len() < ROW {
        return SHORT;
    }
    number_of(pack::pack(shape_of(row), layout_of(row), source, cells))
}

// Unpacks by the shape and the layout of a row and hands back its number.
#[unsafe(no_mangle)]
pub extern "C" fn unpack_any(row: &[u64], cells: &[u32], destination: &mut [u32]) -> u64 {
    if row.len() < ROW {
        return SHORT;
    }
    number_of(pack::unpack(shape_of(row), layout_of(row), cells, destination))
}

// The row without packing: what reading it costs.
#[unsafe(no_mangle)]
pub extern "C" fn read_any(row: &[u64]) -> u64 {
    if row.len() < ROW {
        return SHORT;
    }
    let shape = shape_of(row);
    let layout = layout_of(row);
    shape.sizes[0].min(layout.tile[0])
}

// Packs by the plain loop, where the row is one number longer: 0 for plain division, another for the multipliers.
#[unsafe(no_mangle)]
pub extern "C" fn pack_plainly(row: &[u64], source: &[u32], cells: &mut [u32]) -> u64 {
    if row.len() <= ROW {
        return SHORT;
    }
    let shape = shape_of(row);
    let layout = layout_of(row);
    if let Err(r) = layout::judge_layout(shape, layout) {
        return refusal::number(r);
    }
    if (source.len() as u64) < shape::inner::count_of(shape) {
        return SHORT;
    }
    if (cells.len() as u64) < layout::inner::padded_cells(shape, layout) {
        return SHORT;
    }
    if row[ROW] == 0 {
        plain::by_division(shape, layout, source, cells);
    } else {
        plain::by_table(shape, layout, source, cells);
    }
    0
}
