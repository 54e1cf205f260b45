// The stores that settle cells, one to a step: a cell, then the mark past it. Inner functions.
ghost use Rattle.std.specs.Prelude.{◌≡◌, ◌+◌, ◌*◌, ◌<◌, ◌≤◌, length, set, take};
ghost use Rattle.radix.specs.Radix.{max_count};
ghost use Rattle.retile.specs.Stores.{memory, apply, apply_all, stores};
ghost use Rattle.retile.specs.Steps.{next_store, turned, listed};

// Whose store is next: that of the cell at the mark, or the mark's.
#[derive(Clone, Copy)]
pub enum Phase {
    Cell,
    Mark,
}

// The store of a cell.
fn store_cell(cells: &mut [u32], o: u64, value: u32)
    requires { (o < length cells.old) × (o < max_count) }
    ensures { cells.new ≡ set cells.old o value }
{
    cells[o as usize] = value;
}

// The store of the mark: one cell more is final.
fn store_mark(mark: &mut u64)
    requires { mark.old < max_count }
    ensures { mark.new ≡ mark.old + 1 }
{
    *mark += 1;
}

// One step: the one store that is next, where value is that of the cell at the mark; and whose store is next after it.
fn step(cells: &mut [u32], mark: &mut u64, value: u32, phase: Phase) -> Phase
    requires { (mark.old < length cells.old) × (mark.old < max_count) }
    ensures { (memory cells.new mark.new ≡ apply (next_store value mark.old phase) (memory cells.old mark.old)) × (result ≡ turned phase) }
{
    match phase {
        Phase::Cell => {
            store_cell(cells, *mark, value);
            Phase::Mark
        }
        Phase::Mark => {
            store_mark(mark);
            Phase::Cell
        }
    }
}

// The first so many of the stores that settle the cells from the mark on with these values.
pub fn settle(values: &[u32], steps: usize, cells: &mut [u32], mark: &mut u64)
    requires { (mark.old + length values.now ≤ length cells.old) × (mark.old + length values.now ≤ max_count) × (steps ≤ 2 * length values.now) }
    ensures { memory cells.new mark.new ≡ apply_all (take steps (stores (listed values.now mark.old) mark.old (length values.now))) (memory cells.old mark.old) }
{
    let first = *mark;
    let mut phase = Phase::Cell;
    for _k in 0..steps {
        let i = (*mark - first) as usize;
        phase = step(cells, mark, values[i], phase);
    }
}
