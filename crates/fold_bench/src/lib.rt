// The fold call for a benchmark: a map is read from three rows of numbers, folded by the library and written back.
#![tactic(auto)]

ghost use Rattle.std.specs.Prelude.{◌≡◌, [], ◌∷◌};
ghost use Rattle.indexing.specs.Answers.{no_map};
ghost use Rattle.fold.specs.FoldMap.{fold_answer};

use indexing::IndexingMap;

// The lengths of a map's rows: its counts (of variables, results and constraints, then of the nodes of each), its numbers
// (bounds, ends, then the values of nodes) and the kinds of its nodes.
const COUNTS: usize = 44;

const NUMBERS: usize = 368;

const KINDS: usize = 256;

// The number for a row that is too short.
const SHORT: u64 = 9;

// Copies count numbers, from a place of source to a place of target, where both have them.
fn copy_numbers(source: &[i64], from: usize, target: &mut [i64], at: usize, count: usize) {
    if source.len() < count {
        return;
    }
    if source.len() - count < from {
        return;
    }
    if target.len() < count {
        return;
    }
    if target.len() - count < at {
        return;
    }
    target[at..at + count].copy_from_slice(&source[from..from + count]);
}

// The same for counts.
fn copy_counts(source: &[usize], from: usize, target: &mut [usize], at: usize, count: usize) {
    if source.len() < count {
        return;
    }
    if source.len() - count < from {
        return;
    }
    if target.len() < count {
        return;
    }
    if target.len() - count < at {
        return;
    }
    target[at..at + count].copy_from_slice(&source[from..from + count]);
}

// The same for kinds.
fn copy_kinds(source: &[u8], from: usize, target: &mut [u8], at: usize, count: usize) {
    if source.len() < count {
        return;
    }
    if source.len() - count < from {
        return;
    }
    if target.len() < count {
        return;
    }
    if target.len() - count < at {
        return;
    }
    target[at..at + count].copy_from_slice(&source[from..from + count]);
}

// The map that three rows hold.
fn read_map(counts: &[usize], numbers: &[i64], row: &[u8]) -> IndexingMap {
    let mut head = [0; 4];
    copy_counts(counts, 0, &mut head, 0, 4);
    let mut result_nodes = [0; 8];
    copy_counts(counts, 4, &mut result_nodes, 0, 8);
    let mut constraint_nodes = [0; 32];
    copy_counts(counts, 12, &mut constraint_nodes, 0, 32);
    let mut lower = [0; 24];
    copy_numbers(numbers, 0, &mut lower, 0, 24);
    let mut upper = [0; 24];
    copy_numbers(numbers, 24, &mut upper, 0, 24);
    let mut constraint_lower = [0; 32];
    copy_numbers(numbers, 48, &mut constraint_lower, 0, 32);
    let mut constraint_upper = [0; 32];
    copy_numbers(numbers, 80, &mut constraint_upper, 0, 32);
    let mut values = [0; 256];
    copy_numbers(numbers, 112, &mut values, 0, 256);
    let mut kinds = [0; 256];
    copy_kinds(row, 0, &mut kinds, 0, 256);
    IndexingMap {
        dims: head[0],
        ranges: head[1],
        lower,
        upper,
        results: head[2],
        result_nodes,
        constraints: head[3],
        constraint_nodes,
        constraint_lower,
        constraint_upper,
        kinds,
        values,
    }
}

// Writes the counts of a map.
fn write_counts(m: IndexingMap, counts: &mut [usize]) {
    let head = [m.dims, m.ranges, m.results, m.constraints];
    copy_counts(&head, 0, counts, 0, 4);
    copy_counts(&m.result_nodes, 0, counts, 4, 8);
    copy_counts(&m.constraint_nodes, 0, counts, 12, 32);
}

// Writes the numbers of a map.
fn write_numbers(m: IndexingMap, numbers: &mut [i64]) {
    copy_numbers(&m.lower, 0, numbers, 0, 24);
    copy_numbers(&m.upper, 0, numbers, 24, 24);
    copy_numbers(&m.constraint_lower, 0, numbers, 48, 32);
    copy_numbers(&m.constraint_upper, 0, numbers, 80, 32);
    copy_numbers(&m.values, 0, numbers, 112, 256);
}

// Whether a row of each kind is long enough.
fn long_enough(counts: usize, numbers: usize, kinds: usize) -> bool {
    COUNTS <= counts && NUMBERS <= numbers && KINDS <= kinds
}

// A map of zeros.
fn no_map() -> IndexingMap
    ensures { result ≡ no_map }
{
    IndexingMap {
        dims: 0,
        ranges: 0,
        lower: [0; 24],
        upper: [0; 24],
        results: 0,
        result_nodes: [0; 8],
        constraints: 0,
        constraint_nodes: [0; 32],
        constraint_lower: [0; 32],
        constraint_upper: [0; 32],
        kinds: [0; 256],
        values: [0; 256],
    }
}

// A map folded, zeros where it is refused, and the number, 0 for done.
fn fold_to_map(m: IndexingMap) -> (IndexingMap, u64)
    ensures map { result.0 ∷ [] ≡ (fold_answer m).values }
    ensures number { result.1 ≡ (fold_answer m).number }
{
    match fold::fold_map(m) {
        Ok(map) => (map, 0),
        Err(r) => (no_map(), refusal::number(r)),
    }
}

// Folds the map of three rows, writes the folded map as such rows, zeros where it is refused, and hands back the number, 0 for done.
#[unsafe(no_mangle)]
pub extern "C" fn fold_rows(
    counts: &[usize],
    numbers: &[i64],
    kinds: &[u8],
    counts_out: &mut [usize],
    numbers_out: &mut [i64],
    kinds_out: &mut [u8],
) -> u64 {
    if !long_enough(counts.len(), numbers.len(), kinds.len()) {
        return SHORT;
    }
    if !long_enough(counts_out.len(), numbers_out.len(), kinds_out.len()) {
        return SHORT;
    }
    let (m, number) = fold_to_map(read_map(counts, numbers, kinds));
    write_counts(m, counts_out);
    write_numbers(m, numbers_out);
    copy_kinds(&m.kinds, 0, kinds_out, 0, KINDS);
    number
}

// The same rows without folding: what reading and writing them costs.
#[unsafe(no_mangle)]
pub extern "C" fn copy_rows(
    counts: &[usize],
    numbers: &[i64],
    kinds: &[u8],
    counts_out: &mut [usize],
    numbers_out: &mut [i64],
    kinds_out: &mut [u8],
) -> u64 {
    if !long_enough(counts.len(), numbers.len(), kinds.len()) {
        return SHORT;
    }
    if !long_enough(counts_out.len(), numbers_out.len(), kinds_out.len()) {
        return SHORT;
    }
    let m = read_map(counts, numbers, kinds);
    write_counts(m, counts_out);
    write_numbers(m, numbers_out);
    copy_kinds(&m.kinds, 0, kinds_out, 0, KINDS);
    0
}
