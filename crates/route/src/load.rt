// What is kept of the stations read so far: whether they keep their rules, and the planner's tables.
ghost use Rattle.std.specs.Prelude.{◌≡◌, true, ◌&&◌, ℕ, ◌+◌, ◌-◌, ◌*◌, ◌<◌, ◌≤◌, length};
ghost use Rattle.shape.specs.Shape.{good_shape};
ghost use Rattle.plan.specs.Answer.{max_stations};
ghost use Rattle.route.specs.Stations.{max_layouts, station_at, good_count, good_parent, good_layouts, good_sizes};
ghost use Rattle.route.specs.Loading.{Reads, Fit, Filled, feeding, capped_size, move_at, Sound, Ready, Starts, Adds, Loads, Holds};

use super::repeats::station_repeat;
use super::{Station, same};
use refusal::Refusal;
use shape::Shape;

// Whether the numbers (counts and parents), the layouts and the padded sizes keep their rules; the first layout that
// stands twice in a list; and the planner's tables.
#[derive(Clone, Copy)]
pub struct Loaded {
    pub numbers_kept: bool,
    pub layouts_kept: bool,
    pub repeat: Result<(), Refusal>,
    pub sizes_kept: bool,
    pub parents: [usize; 64],
    pub counts: [usize; 64],
    pub sizes: [u64; 512],
    pub moved: [usize; 4096],
}

// Nothing is read yet.
pub fn empty() -> Loaded
    ensures { Starts result }
{
    Loaded {
        numbers_kept: true,
        layouts_kept: true,
        repeat: Ok(()),
        sizes_kept: true,
        parents: [0usize; 64],
        counts: [0usize; 64],
        sizes: [0u64; 512],
        moved: [0usize; 4096],
    }
}

// How many records to read of a list of length len: none where the shape breaks its limits or there are too many
// stations.
pub fn records(shape: Shape, number: usize, len: usize) -> usize
    ensures { Reads shape number len result }
{
    if shape::good_shape(shape) && number <= super::MAX_STATIONS {
        number.min(len)
    } else {
        0
    }
}

// The station has 1 to 8 layouts.
fn good_count(station: Station) -> bool
    ensures { result ≡ good_count station }
{
    1 <= station.count && station.count <= super::MAX_LAYOUTS
}

// Station i is the first, or its parent is an earlier station.
fn good_parent(i: usize, station: Station) -> bool
    ensures { result ≡ good_parent i station }
{
    i == 0 || station.parent < i
}

// The count of station i and its parent keep their rules.
fn good_numbers(i: usize, station: Station) -> bool
    ensures { result ≡ (good_count station && good_parent i station) }
{
    good_count(station) && good_parent(i, station)
}

// The station that feeds station i: its parent where that is an earlier one, else station i itself.
fn feeding_station(i: usize, station: Station) -> usize
    ensures { result ≡ feeding i station }
{
    station.parent.min(i)
}

// Every layout of the station keeps its rule.
fn good_layouts(rank: usize, station: Station) -> bool
    requires { station.count ≤ max_layouts }
    ensures { result ≡ good_layouts rank station }
{
    station.layouts[..station.count]
        .iter()
        .all(|layout| layout::good_layout(rank, *layout))
}

// Enters the padded sizes of a station from entry at on. Every one is at most 2^40.
fn enter_sizes(shape: Shape, station: Station, at: usize, sizes: &mut [u64]) -> bool
    requires shape_value { (good_shape shape ≡ true) × (at + max_layouts ≤ length sizes.old) }
    requires fit { Fit shape.rank station }
    ensures value { result ≡ good_sizes shape station }
    ensures filled { Filled sizes.old sizes.new at station.count (capped_size shape station) }
{
    let mut kept = true;
    for a in 0..station.count {
        let size = layout::inner::padded_capped(shape, station.layouts[a]);
        sizes[at + a] = size;
        if radix::MAX_COUNT < size {
            kept = false;
        }
    }
    kept
}

// The moves from place t / 8 of a station to place t % 8 of another, and 0 past their counts.
fn move_at(rank: usize, from: Station, to: Station, t: usize) -> usize
    requires t_bound { t < max_layouts * max_layouts }
    requires fit { Fit rank from }
    requires fit_2 { Fit rank to }
    ensures { result ≡ move_at from to t }
{
    let a = t / super::MAX_LAYOUTS;
    let b = t % super::MAX_LAYOUTS;
    if a < from.count && b < to.count && !same::same_layout(rank, from.layouts[a], to.layouts[b]) {
        1
    } else {
        0
    }
}

// Enters the moves from a station to one that it feeds from entry at on.
fn enter_moves(rank: usize, from: Station, to: Station, at: usize, moved: &mut [usize])
    requires max_layouts_in_bounds { at + max_layouts * max_layouts ≤ length moved.old }
    requires fit { Fit rank from }
    requires fit_2 { Fit rank to }
    ensures { Filled moved.old moved.new at (max_layouts * max_layouts) (move_at from to) }
{
    for t in 0..super::MAX_LAYOUTS * super::MAX_LAYOUTS {
        moved[at + t] = move_at(rank, from, to, t);
    }
}

// The station, which keeps its rules 2 and 3 as `from` does that feeds it, is station i.
fn enter(shape: Shape, loaded: &mut Loaded, i: usize, station: Station, from: Station)
    requires shape_value { (good_shape shape ≡ true) × (i < max_stations) }
    requires sound { Sound loaded.old }
    requires station_value { ((good_count station && good_parent i station) ≡ true) × (good_layouts shape.rank station ≡ true) }
    requires fit { Fit shape.rank from }
    ensures { Adds shape loaded.old i station from loaded.new }
{
    let repeat = loaded.repeat.and(station_repeat(shape.rank, station, i));
    loaded.repeat = repeat;
    loaded.parents[i] = feeding_station(i, station);
    loaded.counts[i] = station.count;
    enter_moves(shape.rank, from, station, i * 64, &mut loaded.moved);
    let kept = enter_sizes(shape, station, i * 8, &mut loaded.sizes);
    if !kept {
        loaded.sizes_kept = false;
    }
}

// One station more, station i, which `from` feeds. Nothing is entered any more where an earlier one breaks its rule 2
// or 3. The tables are filled where they lie, not copied for each station.
pub fn add(shape: Shape, loaded: &mut Loaded, i: usize, station: Station, from: Station)
    requires { Ready shape loaded.old i station from }
    ensures { Adds shape loaded.old i station from loaded.new }
{
    if !good_numbers(i, station) {
        loaded.numbers_kept = false;
    } else if !good_layouts(shape.rank, station) {
        loaded.layouts_kept = false;
    } else if loaded.numbers_kept && loaded.layouts_kept {
        enter(shape, loaded, i, station, from);
    }
}

// Reads the first n records of the list.
pub fn load(shape: Shape, stations: &[Station], n: usize, start: Loaded) -> Loaded
    requires { Loads shape stations.now n start }
    ensures { Holds shape stations.now n result }
{
    let mut loaded = start;
    for i in 0..n {
        let station = stations[i];
        let from = feeding_station(i, station);
        add(shape, &mut loaded, i, station, stations[from]);
    }
    loaded
}
