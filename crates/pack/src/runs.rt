// Copying along a table of offsets: place by place, or in runs where the table goes on by ones. Inner functions.
ghost use Rattle.std.specs.Prelude.{◌≡◌, true, ◌+◌, ◌<◌, ◌≤◌, length};
ghost use Rattle.pack.specs.Rows.{scattered, gathered, carried, Reaches, RowRoom};
ghost use Rattle.pack.specs.Runs.{GoesOn, InRuns, IsPart, copied};

// Runs of fewer places than this are copied place by place.
const SHORT: usize = 8;

// How far the table goes on by ones from 0 at its front, at least 1.
fn front_run(table: &[u64]) -> usize
    ensures { 0 < result }
{
    (1..table.len())
        .find(|n| table[*n] != *n as u64)
        .unwrap_or(table.len().max(1))
}

// Whether n places of the table from j on go on by ones.
fn goes_on(table: &[u64], j: usize, n: usize) -> bool
    requires { (0 < n) × (j + n ≤ length table.now) }
    ensures { result ≡ true → GoesOn table.now j n }
{
    let first = table[j];
    table[j..j + n]
        .iter()
        .enumerate()
        .all(|(i, t)| *t >= first && *t - first == i as u64)
}

// How many places of a run from place j on are among the first so many.
fn run_from(j: usize, run: usize, len: usize) -> usize
    requires { (0 < run) × (j < len) }
    ensures { IsPart j run len result }
{
    run.min(len - j)
}

// Whether the table goes on by ones in runs of so many places.
fn in_runs(table: &[u64], run: usize) -> bool
    requires { 0 < run }
    ensures { result ≡ true → InRuns run table.now }
{
    let mut j: usize = 0;
    // A `while`: the last run may be shorter.
    while j < table.len() {
        let n = run_from(j, run, table.len());
        if !goes_on(table, j, n) {
            return false;
        }
        j += n;
    }
    true
}

// The length of the table's runs: 1 where it has none that are worth their test.
pub fn run_length(table: &[u64]) -> usize
    ensures { (0 < result) × InRuns result table.now }
{
    let run = front_run(table);
    if SHORT <= run && in_runs(table, run) {
        run
    } else {
        1
    }
}

// n values from place a of the source on to the places from o on of the target. A loop and no `copy_from_slice`, a call of which takes up to twice the time on
// tables of megabytes.
fn copy_values(source: &[u32], a: usize, n: usize, o: usize, target: &mut [u32])
    requires { (a + n ≤ length source.now) × (o + n ≤ length target.old) }
    ensures { target.new ≡ copied source.now a n o target.old }
{
    for i in 0..n {
        target[o + i] = source[a + i];
    }
}

// The values from place a on to the cells that the table names, counted from base.
fn scatter(source: &[u32], a: usize, table: &[u64], base: u64, cells: &mut [u32])
    requires { (a + length table.now ≤ length source.now) × Reaches base table.now (length cells.old) }
    ensures { cells.new ≡ scattered source.now base table.now a cells.old }
{
    for (j, t) in table.iter().enumerate() {
        cells[(base + *t) as usize] = source[a + j];
    }
}

// The cells that the table names, counted from base, to the places from a on.
fn gather(cells: &[u32], a: usize, table: &[u64], base: u64, destination: &mut [u32])
    requires { (a + length table.now ≤ length destination.old) × Reaches base table.now (length cells.now) }
    ensures { destination.new ≡ gathered cells.now base table.now a destination.old }
{
    for (j, t) in table.iter().enumerate() {
        destination[a + j] = cells[(base + *t) as usize];
    }
}

// The values from place a on to the cells that the table names, run by run.
fn scatter_runs(source: &[u32], a: usize, table: &[u64], run: usize, base: u64, cells: &mut [u32])
    requires table_in_bounds { (a + length table.now ≤ length source.now) × Reaches base table.now (length cells.old) }
    requires run_nonzero { (0 < run) × InRuns run table.now }
    ensures { cells.new ≡ scattered source.now base table.now a cells.old }
{
    let mut j: usize = 0;
    // A `while`: the last run may be shorter.
    while j < table.len() {
        let n = run_from(j, run, table.len());
        let o = (base + table[j]) as usize;
        copy_values(source, a + j, n, o, cells);
        j += n;
    }
}

// The cells that the table names to the places from a on, run by run.
fn gather_runs(
    cells: &[u32],
    a: usize,
    table: &[u64],
    run: usize,
    base: u64,
    destination: &mut [u32],
)
    requires table_in_bounds { (a + length table.now ≤ length destination.old) × Reaches base table.now (length cells.now) }
    requires run_nonzero { (0 < run) × InRuns run table.now }
    ensures { destination.new ≡ gathered cells.now base table.now a destination.old }
{
    let mut j: usize = 0;
    // A `while`: the last run may be shorter.
    while j < table.len() {
        let n = run_from(j, run, table.len());
        let o = (base + table[j]) as usize;
        copy_values(cells, o, n, a + j, destination);
        j += n;
    }
}

// A row carried, to its cells in packing and from them in unpacking: run by run where the runs are long.
pub fn carry_row(
    packs: bool,
    from: &[u32],
    a: usize,
    table: &[u64],
    run: usize,
    base: u64,
    to: &mut [u32],
)
    requires room { RowRoom packs from.now base table.now a to.old }
    requires run_nonzero { (0 < run) × InRuns run table.now }
    ensures { to.new ≡ carried packs from.now base table.now a to.old }
{
    let short = run < SHORT;
    if packs {
        if short {
            scatter(from, a, table, base, to);
        } else {
            scatter_runs(from, a, table, run, base, to);
        }
    } else {
        if short {
            gather(from, a, table, base, to);
        } else {
            gather_runs(from, a, table, run, base, to);
        }
    }
}
