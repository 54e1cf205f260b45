// The planner over a tree of stations: rows of least weights, each station's merged into its parent's, the last first.
// Inner functions of the library.
#![tactic(auto)]

ghost use Rattle.std.specs.Prelude.{◌≡◌, ℕ, ◌+◌, ◌*◌, ◌-◌, ◌<◌, ◌≤◌, ◌^◌, min, length, get_or, ltb};
ghost use Rattle.plan.specs.Net.{price};
ghost use Rattle.plan.specs.Answer.{spread};
ghost use Rattle.radix.specs.Radix.{tab};
ghost use Rattle.tree_plan.specs.Merge.{lowest};
ghost use Rattle.tree_plan.specs.Weight.{scale, far_weight, place_in, least_weight};
ghost use Rattle.tree_plan.specs.Answer.{tree_answer};
ghost use Rattle.tree_planner.specs.Words.{tabled, Usable, plan_of};
ghost use Rattle.tree_planner.specs.Words.{value_of, Worded, Good, words_at, weight_at, Sound};
ghost use Rattle.tree_planner.specs.Rows.{table_words, room_words, Space, Columns, Stored, Entry, Row, Rows, Kept};
ghost use Rattle.tree_planner.specs.Rows.{lowered, together};
ghost use Rattle.tree_planner.specs.Merging.{Priced, own_at, linked, named, held, Merged, Shrunk};

use plan::Plan;
use tree_plan::MAX_STATIONS;

// The most layouts of a station.
const MAX_LAYOUTS: usize = 8;

// A row of the table has an entry for each number of moves left, from 0 on.
const COLUMNS: usize = 64;

// The words of an entry.
const ENTRY_WORDS: usize = 4;

// The words of the table: a row for each layout of each station.
const TABLE_WORDS: usize = MAX_STATIONS * MAX_LAYOUTS * COLUMNS * ENTRY_WORDS;

// The words of the room: a row for each layout of a parent, and one to work in.
const ROOM_WORDS: usize = (MAX_LAYOUTS + 1) * COLUMNS * ENTRY_WORDS;

// The row to work in.
const WORK_ROW: usize = MAX_LAYOUTS;

// 2^63: a word holds 21 places, and the sum of two fits.
const BASE: u64 = 9223372036854775808;

// The top word of a weight that no plan has.
const FAR: u64 = 1152921504606846976;

// A plan's cost, then its places as digits in base 8: 8 times the cost and the first place, then 21 places to a word.
#[derive(Clone, Copy, PartialEq, Eq, PartialOrd, Ord)]
struct Weight {
    top: u64,
    high: u64,
    mid: u64,
    low: u64,
}

// Parents, counts of places, padded sizes at i * 8 + place, and moves, 0 or 1, at (i * 8 + parent's place) * 8 + place.
#[derive(Clone, Copy)]
pub struct TreeTables {
    pub parents: [usize; MAX_STATIONS],
    pub counts: [usize; MAX_STATIONS],
    pub sizes: [u64; MAX_STATIONS * MAX_LAYOUTS],
    pub moved: [usize; MAX_STATIONS * MAX_LAYOUTS * MAX_LAYOUTS],
}

// More than any plan weighs.
fn far() -> Weight
    ensures { (value_of result ≡ far_weight) × Good result }
{
    Weight {
        top: FAR,
        high: 0,
        mid: 0,
        low: 0,
    }
}

// The sum of a and b.
fn sum(a: Weight, b: Weight) -> Weight
    requires { Good a × Good b }
    ensures { (value_of result ≡ value_of a + value_of b) × Worded result }
{
    let low = a.low + b.low;
    let mid = a.mid + b.mid + low / BASE;
    let high = a.high + b.high + mid / BASE;
    Weight {
        top: a.top + b.top + high / BASE,
        high: high % BASE,
        mid: mid % BASE,
        low: low % BASE,
    }
}

// The weight at an entry of a table.
fn load(table: &[u64], at: usize) -> Weight
    requires { (at < 32768) × (at * 4 + 4 ≤ length table.now) }
    ensures { result ≡ words_at table.now at }
{
    Weight {
        top: table[at * ENTRY_WORDS],
        high: table[at * ENTRY_WORDS + 1],
        mid: table[at * ENTRY_WORDS + 2],
        low: table[at * ENTRY_WORDS + 3],
    }
}

// Puts a weight there.
fn store(table: &mut [u64], at: usize, w: Weight)
    requires { (at < 32768) × (at * 4 + 4 ≤ length table.old) }
    ensures { Stored table.old table.new at w }
{
    table[at * ENTRY_WORDS] = w.top;
    table[at * ENTRY_WORDS + 1] = w.high;
    table[at * ENTRY_WORDS + 2] = w.mid;
    table[at * ENTRY_WORDS + 3] = w.low;
}

// Lowers an entry to the sum of x and y, where that is less. Mostly the top words, or all, tell that it is not.
fn lower(table: &mut [u64], at: usize, x: Weight, y: Weight)
    requires { Sound table.old × (at < 32768) × (at * 4 + 4 ≤ length table.old) × Good x × Good y }
    ensures { Entry table.old table.new at
        (min (weight_at table.old at) (value_of x + value_of y)) }
{
    if table[at * ENTRY_WORDS] < x.top + y.top {
        return;
    }
    let held = load(table, at);
    let words = Weight {
        top: x.top + y.top,
        high: x.high + y.high,
        mid: x.mid + y.mid,
        low: x.low + y.low,
    };
    if held <= words {
        return;
    }
    let w = sum(x, y);
    if w < held {
        store(table, at, w);
    }
}

// Puts a weight into the first entries of a row.
fn start_row(table: &mut [u64], row: usize, w: Weight, columns: usize)
    requires { Sound table.old × (row < 512) × (row * 256 + 256 ≤ length table.old) × Good w × (columns ≤ 64) }
    ensures { Row table.old table.new row columns (λ k. value_of w) }
{
    for k in 0..columns {
        store(table, row * COLUMNS + k, w);
    }
}

// Copies the first entries of the room's row to work in.
fn copy_row(table: &mut [u64], row: usize, room: &[u64], columns: usize)
    requires { Space table.old table_words × Space room.now room_words × (row < 512) × (columns ≤ 64) }
    ensures { Row table.old table.new row columns
        (λ k. weight_at room.now (8 * 64 + k)) }
{
    let to = row * COLUMNS * ENTRY_WORDS;
    let from = WORK_ROW * COLUMNS * ENTRY_WORDS;
    let words = columns * ENTRY_WORDS;
    table[to..to + words].copy_from_slice(&room[from..from + words]);
}

// Lowers a row of the room to a row of the table, some moves later and with a weight more.
fn lower_row(
    room: &mut [u64],
    to: usize,
    table: &[u64],
    row: usize,
    taken: usize,
    extra: Weight,
    columns: usize,
)
    requires space { Space room.old room_words × Space table.now table_words × Good extra }
    requires to_bound { (to < 9) × (row < 512) × (taken ≤ columns) × (columns ≤ 64) }
    ensures { Row room.old room.new to columns
        (lowered room.old to table.now row taken (value_of extra)) }
{
    for k in taken..columns {
        let x = load(table, row * COLUMNS + (k - taken));
        lower(room, to * COLUMNS + k, x, extra);
    }
}

// The price of a move, from the parent's and the station's padded size.
fn move_price(earlier: u64, later: u64) -> u64
    requires { (earlier ≤ 2 ^ 41) × (later ≤ 2 ^ 41) }
    ensures { (result ≡ price earlier later) × (result ≤ 2 ^ 42) }
{
    earlier + later
}

// What the moves of a link, 0 or 1, weigh, between two layouts.
fn link_weight(sizes: &[u64], taken: usize, earlier: usize, later: usize) -> Weight
    requires sizes_len { (length sizes.now ≡ 512) × ((k : ℕ) → get_or sizes.now k 0 ≤ 2 ^ 41) }
    requires taken_bound { (taken ≤ 1) × (earlier < 512) × (later < 512) }
    ensures { (value_of result
        ≡ taken * price (get_or sizes.now earlier 0) (get_or sizes.now later 0) * scale) × Good result }
{
    let cost = (taken as u64) * move_price(sizes[earlier], sizes[later]);
    Weight {
        top: cost * 8,
        high: 0,
        mid: 0,
        low: 0,
    }
}

// The least weights over the places of station v, its parent u at place a, with each number of moves left at the link.
fn reach_row(
    sizes: &[u64],
    moved: &[usize],
    table: &[u64],
    u: usize,
    v: usize,
    count: usize,
    a: usize,
    room: &mut [u64],
    columns: usize,
)
    requires priced { Priced sizes.now moved.now × Space table.now table_words × Space room.old room_words }
    requires u_bound { (u < 64) × (v < 64) × (count ≤ 8) × (a < 8) × Columns columns }
    ensures { Row room.old room.new a columns (λ k. lowest far_weight count
        (linked sizes.now moved.now table.now u v a k)) }
{
    start_row(room, a, far(), columns);
    for b in 0..count {
        let taken = moved[(v * MAX_LAYOUTS + a) * MAX_LAYOUTS + b];
        let extra = link_weight(sizes, taken, u * MAX_LAYOUTS + a, v * MAX_LAYOUTS + b);
        lower_row(room, a, table, v * MAX_LAYOUTS + b, taken, extra, columns);
    }
}

// The same for each place of u, a row of the room for each.
fn reach(
    sizes: &[u64],
    moved: &[usize],
    table: &[u64],
    u: usize,
    v: usize,
    places: usize,
    count: usize,
    room: &mut [u64],
    columns: usize,
)
    requires priced { Priced sizes.now moved.now × Space table.now table_words × Space room.old room_words }
    requires u_bound { (u < 64) × (v < 64) × (places ≤ 8) × (count ≤ 8) × Columns columns }
    ensures { Rows room.old room.new 0 places columns (λ a k. lowest far_weight count
        (linked sizes.now moved.now table.now u v a k)) }
{
    for a in 0..places {
        reach_row(sizes, moved, table, u, v, count, a, room, columns);
    }
}

// Joins a row of the room to one weight, whatever the moves left: the least over the room's entries up to each.
fn join_first(table: &mut [u64], row: usize, own: Weight, room: &[u64], a: usize, columns: usize)
    requires space { Space table.old table_words × Space room.now room_words × Good own }
    requires row_bound { (row < 512) × (a < 8) × (columns ≤ 64) }
    ensures { Row table.old table.new row columns
        (together (λ k. value_of own) room.now a) }
{
    let mut best = far();
    for k in 0..columns {
        best = best.min(sum(own, load(room, a * COLUMNS + k)));
        store(table, row * COLUMNS + k, best);
    }
}

// Joins a row of the room to a row of the table: the least over the splits of the moves.
fn join_further(table: &mut [u64], row: usize, room: &mut [u64], a: usize, columns: usize)
    requires space { Space table.old table_words × Space room.old room_words }
    requires row_bound { (row < 512) × (a < 8) × (columns ≤ 64) }
    ensures { Row table.old table.new row columns
        (together (λ k. weight_at table.old (row * 64 + k)) room.old a)
        × Kept room.old room.new }
{
    start_row(room, WORK_ROW, far(), columns);
    for j in 0..columns {
        let extra = load(room, a * COLUMNS + j);
        lower_row(room, WORK_ROW, table, row, j, extra, columns);
    }
    copy_row(table, row, room, columns);
}

// Does a station after v name u as its parent?
fn has_child(parents: &[usize], n: usize, u: usize, v: usize) -> bool
    requires { (length parents.now ≡ 64) × (n ≤ 64) × (v < n) }
    ensures { result ≡ named parents.now u (v + 1) (n - (v + 1)) }
{
    parents[v + 1..n].contains(&u)
}

// 8 to the power x.
fn eights(x: usize) -> u64
    requires { x ≤ 20 }
    ensures value { result ≡ 8 ^ x }
    ensures upper_bound { result ≤ 2 ^ 60 }
{
    8u64.pow(x as u32)
}

// The weight of place b of station i alone.
fn own_of(sizes: &[u64], cells: u64, i: usize, b: usize) -> Weight
    requires { (length sizes.now ≡ 512) × (cells ≤ 2 ^ 40) × (i < 64) × (b < 8) }
    ensures { (value_of result ≡ own_at sizes.now cells i b) × Good result }
{
    let size = sizes[i * MAX_LAYOUTS + b];
    if cells < size {
        return far();
    }
    let digit = b as u64;
    let mut w = Weight {
        top: size * 8,
        high: 0,
        mid: 0,
        low: 0,
    };
    if i == 0 {
        w.top += digit;
    } else if i < 22 {
        w.high = digit * eights(21 - i);
    } else if i < 43 {
        w.mid = digit * eights(42 - i);
    } else {
        w.low = digit * eights(63 - i);
    }
    w
}

// A station's own weights, whatever the moves left.
fn start_station(
    sizes: &[u64],
    cells: u64,
    i: usize,
    count: usize,
    table: &mut [u64],
    columns: usize,
)
    requires sizes_len { (length sizes.now ≡ 512) × (cells ≤ 2 ^ 40) × Space table.old table_words }
    requires i_bound { (i < 64) × (count ≤ 8) × (columns ≤ 64) }
    ensures { Rows table.old table.new (i * 8) count columns
        (λ b k. own_at sizes.now cells i b) }
{
    for b in 0..count {
        start_row(
            table,
            i * MAX_LAYOUTS + b,
            own_of(sizes, cells, i, b),
            columns,
        );
    }
}

// The rows of station v: its own weights where no child of it is merged.
fn ready(
    sizes: &[u64],
    cells: u64,
    v: usize,
    count: usize,
    merged: bool,
    table: &mut [u64],
    columns: usize,
)
    requires sizes_len { (length sizes.now ≡ 512) × (cells ≤ 2 ^ 40) × Space table.old table_words }
    requires v_bound { (v < 64) × (count ≤ 8) × (columns ≤ 64) }
    ensures { Rows table.old table.new (v * 8) count columns
        (held merged table.old sizes.now cells v) }
{
    if !merged {
        start_station(sizes, cells, v, count, table, columns);
    }
}

// Joins row a of the room to station u's row, or to its own weight where no child of it is merged yet.
fn join_row(
    sizes: &[u64],
    cells: u64,
    u: usize,
    a: usize,
    merged: bool,
    table: &mut [u64],
    room: &mut [u64],
    columns: usize,
)
    requires sizes_len { (length sizes.now ≡ 512) × (cells ≤ 2 ^ 40)
        × Space table.old table_words × Space room.old room_words }
    requires u_bound { (u < 64) × (a < 8) × (columns ≤ 64) }
    ensures { Row table.old table.new (u * 8 + a) columns
        (together (held merged table.old sizes.now cells u a) room.old a)
        × Kept room.old room.new }
{
    if merged {
        join_further(table, u * MAX_LAYOUTS + a, room, a, columns);
    } else {
        join_first(
            table,
            u * MAX_LAYOUTS + a,
            own_of(sizes, cells, u, a),
            room,
            a,
            columns,
        );
    }
}

// The same for each place of u.
fn join(
    sizes: &[u64],
    cells: u64,
    u: usize,
    count: usize,
    merged: bool,
    table: &mut [u64],
    room: &mut [u64],
    columns: usize,
)
    requires sizes_len { (length sizes.now ≡ 512) × (cells ≤ 2 ^ 40)
        × Space table.old table_words × Space room.old room_words }
    requires u_bound { (u < 64) × (count ≤ 8) × (columns ≤ 64) }
    ensures { Rows table.old table.new (u * 8) count columns
        (λ a. together (held merged table.old sizes.now cells u a) room.old a)
        × Kept room.old room.new }
{
    for a in 0..count {
        join_row(sizes, cells, u, a, merged, table, room, columns);
    }
}

// Merges station v into its parent.
fn merge_one(
    tables: &TreeTables,
    n: usize,
    cells: u64,
    table: &mut [u64],
    v: usize,
    room: &mut [u64],
    columns: usize,
)
    requires usable { Usable tables.now.parents tables.now.counts tables.now.sizes tables.now.moved n cells }
    requires space { Space table.old table_words × Space room.old room_words × (1 ≤ v) × (v < n) × Columns columns }
    ensures { Merged tables.now.parents tables.now.counts tables.now.sizes tables.now.moved
        n cells columns table.old table.new v × Sound room.new }
{
    let sizes = &tables.sizes;
    let u = tables.parents[v];
    let places = tables.counts[u];
    let count = tables.counts[v];
    let branch = has_child(&tables.parents, n, v, v);
    ready(sizes, cells, v, count, branch, table, columns);
    reach(
        sizes,
        &tables.moved,
        table,
        u,
        v,
        places,
        count,
        room,
        columns,
    );
    let forked = has_child(&tables.parents, n, u, v);
    join(sizes, cells, u, places, forked, table, room, columns);
}

// Merges every station but the first.
fn merge_all(
    tables: &TreeTables,
    n: usize,
    cells: u64,
    table: &mut [u64],
    room: &mut [u64],
    columns: usize,
)
    requires usable { Usable tables.now.parents tables.now.counts tables.now.sizes tables.now.moved n cells }
    requires space { Space table.old table_words × Space room.old room_words × Columns columns }
    ensures { Shrunk tables.now.parents tables.now.counts tables.now.sizes tables.now.moved
        n cells columns table.new 0 }
{
    for v in (1..n).rev() {
        merge_one(tables, n, cells, table, v, room, columns);
    }
}

// The least over the first station's places.
fn least(table: &[u64], count: usize, moves: usize) -> Weight
    requires { Space table.now table_words × (count ≤ 8) × (moves < 64) }
    ensures { (value_of result ≡ lowest far_weight count (λ b. weight_at table.now (b * 64 + moves)))
        × Good result }
{
    let mut best = far();
    for b in 0..count {
        best = best.min(load(table, b * COLUMNS + moves));
    }
    best
}

// The place of station i in a weight.
fn place_in(w: Weight, i: usize) -> usize
    requires { Worded w × (i < 64) }
    ensures { result ≡ place_in (value_of w) i }
{
    let digits = if i == 0 {
        w.top
    } else if i < 22 {
        w.high / eights(21 - i)
    } else if i < 43 {
        w.mid / eights(42 - i)
    } else {
        w.low / eights(63 - i)
    };
    (digits % 8) as usize
}

// The places of n stations in a weight.
fn places_of(w: Weight, n: usize) -> [usize; MAX_STATIONS]
    requires { Worded w × (n ≤ 64) }
    ensures { result ≡ spread n (tab (place_in (value_of w)) n) }
{
    let mut out = [0usize; MAX_STATIONS];
    for i in 0..n {
        out[i] = place_in(w, i);
    }
    out
}

// The least weight of a plan, with space for the table and the room.
fn least_weight(
    tables: &TreeTables,
    n: usize,
    cells: u64,
    moves: usize,
    table: &mut [u64],
    room: &mut [u64],
) -> Weight
    requires usable { Usable tables.now.parents tables.now.counts tables.now.sizes tables.now.moved n cells × (moves < 64) }
    requires space { Space table.old table_words × Space room.old room_words }
    ensures { (value_of result ≡ least_weight (tabled tables.now.parents tables.now.counts tables.now.sizes
        tables.now.moved n cells) moves) × Worded result }
{
    let columns = moves + 1;
    merge_all(tables, n, cells, table, room, columns);
    let count = tables.counts[0];
    let branch = has_child(&tables.parents, n, 0, 0);
    ready(&tables.sizes, cells, 0, count, branch, table, columns);
    least(table, count, moves)
}

// The plan that a weight holds, or none where it is `far`.
#[tactic(auto, using(crate::proofs::Answering::plan_none, crate::proofs::Answering::plan_some))]
fn plan_of(w: Weight, n: usize) -> Option<Plan>
    requires { Worded w × (n ≤ 64) }
    ensures { result ≡ plan_of (value_of w) n }
{
    if FAR <= w.top {
        None
    } else {
        Some(Plan {
            places: places_of(w, n),
            total: w.top / 8,
        })
    }
}

// The best plan over a tree of n stations, within the cell limit and the limit on moves.
pub fn best_tree_plan(tables: TreeTables, n: usize, cells: u64, moves: usize) -> Option<Plan>
    requires { Usable tables.parents tables.counts tables.sizes tables.moved n cells × (moves < 64) }
    ensures { result
        ≡ tree_answer (tabled tables.parents tables.counts tables.sizes tables.moved n cells) moves }
{
    let mut table = [0u64; TABLE_WORDS];
    let mut room = [0u64; ROOM_WORDS];
    let w = least_weight(&tables, n, cells, moves, &mut table, &mut room);
    plan_of(w, n)
}
