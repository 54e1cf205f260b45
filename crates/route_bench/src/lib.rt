// The route call for a benchmark: stations made from a seed, in a chain, a star or a random tree, planned by the
// library.
#![tactic(auto)]

use layout::Layout;
use route::Station;
use shape::Shape;

// The table: 200 by 300.
fn table() -> Shape {
    let sizes = [200, 300, 0, 0, 0, 0];
    Shape { rank: 2, sizes }
}

// One of 16 layouts: either order, and a tile of 1, 3, 5 or 7 by 16 or 32.
fn layout_of(k: u64) -> Layout {
    let minor = k % 2;
    let rows = 1 + k / 2 % 4 * 2;
    let columns = 16 + k / 8 % 2 * 16;
    let minor_to_major = [minor, 1 - minor, 0, 0, 0, 0];
    let tile_len = [2, 0, 0];
    let tile = [
        rows, columns, 0, 0, 0, 0, 0, 0, 0, 0, 0, 0, 0, 0, 0, 0, 0, 0,
    ];
    Layout {
        rank: 2,
        minor_to_major,
        tiles: 1,
        tile_len,
        tile,
    }
}

// The next number of a generator modulo 2^31.
fn next(state: u64) -> u64 {
    (state % 2147483648 * 1103515245 + 12345) % 2147483648
}

#[derive(Clone, Copy)]
pub struct Made {
    pub station: Station,
    pub state: u64,
}

// A station of 8 different layouts: of the 16 in a circle, from one of them on in steps of an odd number.
fn station_of(seed: u64) -> Made {
    let state = next(seed);
    let step = 1 + state / 4096 % 8 * 2;
    let mut layouts = [layout_of(0); 8];
    let mut k = state / 65536 % 16;
    for layout in layouts.iter_mut() {
        *layout = layout_of(k);
        k = (k + step) % 16;
    }
    let station = Station {
        parent: 0,
        count: 8,
        layouts,
    };
    Made { station, state }
}

// The parent of station i: form 0 is a chain, 1 a star, any other a random tree.
fn parent_of(form: u64, state: u64, i: usize) -> usize {
    if i == 0 || form == 1 {
        0
    } else if form == 0 {
        i - 1
    } else {
        (state / 1048576) as usize % i
    }
}

// 64 stations.
fn stations_of(form: u64, seed: u64) -> [Station; 64] {
    let first = station_of(seed);
    let station = first.station;
    let mut state = first.state;
    let mut stations = [station; 64];
    for i in 1..64 {
        let made = station_of(state);
        state = made.state;
        stations[i] = made.station;
        stations[i].parent = parent_of(form, state, i);
    }
    stations
}

// The least total through 64 stations of 8 layouts with a limit on moves, or 0 where it is refused.
#[unsafe(no_mangle)]
pub extern "C" fn tree_total(form: u64, seed: u64, moves: u64) -> u64 {
    match route::best_route_of(
        table(),
        stations_of(form, seed),
        64,
        64,
        1099511627776,
        moves as usize,
    ) {
        Ok(route) => route.total,
        Err(_) => 0,
    }
}

// The same for a chain.
#[unsafe(no_mangle)]
pub extern "C" fn route_total(seed: u64, moves: u64) -> u64 {
    tree_total(0, seed, moves)
}

// The same stations without a plan: what making them costs.
#[unsafe(no_mangle)]
pub extern "C" fn stations_only(seed: u64) -> u64 {
    let stations = stations_of(0, seed);
    let last = stations[63];
    let layout = last.layouts[7];
    layout.tile[0]
}
