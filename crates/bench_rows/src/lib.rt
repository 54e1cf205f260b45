// The rows of numbers that the benchmarks hand over: a shape and a layout are read from one.
#![tactic(auto)]

use layout::Layout;
use shape::Shape;

// The length of a row: rank, 6 sizes, 6 entries of minor_to_major, the number of tiles, 3 tile lengths, 18 tile entries.
pub const ROW: usize = 35;

// Fills target from a place of the row on, where the row has so many numbers.
fn copy_numbers(row: &[u64], from: usize, target: &mut [u64]) {
    let count = target.len();
    if count <= row.len() && from <= row.len() - count {
        target.copy_from_slice(&row[from..from + count]);
    }
}

// The shape of a row.
pub fn shape_of(row: &[u64]) -> Shape {
    let mut head = [0; 1];
    copy_numbers(row, 0, &mut head);
    let mut sizes = [0; 6];
    copy_numbers(row, 1, &mut sizes);
    let rank = head[0] as usize;
    Shape { rank, sizes }
}

// The layout of a row.
pub fn layout_of(row: &[u64]) -> Layout {
    let mut head = [0; 1];
    copy_numbers(row, 0, &mut head);
    let mut minor_to_major = [0; 6];
    copy_numbers(row, 7, &mut minor_to_major);
    let mut counts = [0; 4];
    copy_numbers(row, 13, &mut counts);
    let mut tile = [0; 18];
    copy_numbers(row, 17, &mut tile);
    let rank = head[0] as usize;
    let tiles = counts[0] as usize;
    let tile_len = [counts[1] as usize, counts[2] as usize, counts[3] as usize];
    Layout {
        rank,
        minor_to_major,
        tiles,
        tile_len,
        tile,
    }
}
