// A route through stations that form a tree: the cheapest plan of layouts within a cell limit and a limit on moves.
#![tactic(auto)]

mod load;
mod repeats;
mod same;

ghost use Rattle.std.specs.Prelude.{◌≡◌, take};
ghost use Rattle.refusal.specs.Judge.{judge};
ghost use Rattle.route.specs.Route.{good_limits, route_answer, route_of};
ghost use Rattle.route.specs.Loading.{Sound, size_rules, Judges, Answers};

use layout::Layout;
use load::Loaded;
use refusal::Refusal;
use shape::Shape;
use tree_planner::TreeTables;

// The most stations, of layouts of a station, and of moves.
pub const MAX_STATIONS: usize = 64;

pub const MAX_LAYOUTS: usize = 8;

pub const MAX_MOVES: usize = 63;

// The earlier station that feeds a station, and the layouts that it accepts, the first count of them. What stands past
// them, and the first station's parent, is not read.
#[derive(Clone, Copy)]
pub struct Station {
    pub parent: usize,
    pub count: usize,
    pub layouts: [Layout; 8],
}

// A place for each station, 0 in the unused ones, and the plan's cost.
#[derive(Clone, Copy)]
pub struct Route {
    pub places: [usize; 64],
    pub total: u64,
}

// The number of stations, the cell limit and the limit on moves keep their rules.
#[tactic(auto, unfolding(crate::specs::Route::good_limits))]
fn good_limits(number: usize, cells: u64, moves: usize) -> bool
    ensures { result ≡ good_limits number cells moves }
{
    1 <= number
        && number <= MAX_STATIONS
        && 1 <= cells
        && cells <= radix::MAX_COUNT
        && moves <= MAX_MOVES
}

// The rules 4 and 9: whether the padded sizes keep their rule, and the length of the lent list.
fn judge_sizes(kept: bool, len: usize, number: usize) -> Result<(), Refusal>
    ensures { result ≡ judge (size_rules kept len number) }
{
    if !kept {
        return Err(Refusal::PaddedSize);
    }
    if len < number {
        return Err(Refusal::ShortBuffer);
    }
    Ok(())
}

// The rules 1 to 9, in the order of their numbers; len is the length of the lent list.
fn judge_route(
    shape: Shape,
    loaded: Loaded,
    len: usize,
    number: usize,
    cells: u64,
    moves: usize,
) -> Result<(), Refusal>
    ensures { Judges shape loaded len number cells moves result }
{
    if !shape::good_shape(shape) {
        return Err(Refusal::ShapeLimits);
    }
    if !good_limits(number, cells, moves) {
        return Err(Refusal::Attribute);
    }
    if !loaded.numbers_kept {
        return Err(Refusal::Attribute);
    }
    if !loaded.layouts_kept {
        return Err(Refusal::LayoutRule);
    }
    loaded.repeat?;
    judge_sizes(loaded.sizes_kept, len, number)
}

// The answer from what was read of a list of length len.
fn finish(
    shape: Shape,
    loaded: Loaded,
    len: usize,
    number: usize,
    cells: u64,
    moves: usize,
) -> Result<Route, Refusal>
    requires { Sound loaded }
    ensures { Answers shape loaded len number cells moves result }
{
    judge_route(shape, loaded, len, number, cells, moves)?;
    let parents = loaded.parents;
    let counts = loaded.counts;
    let sizes = loaded.sizes;
    let moved = loaded.moved;
    let tables = TreeTables {
        parents,
        counts,
        sizes,
        moved,
    };
    let plan = tree_planner::best_tree_plan(tables, number, cells, moves).ok_or(Refusal::NoPlan)?;
    let places = plan.places;
    Ok(Route {
        places,
        total: plan.total,
    })
}

// The cheapest plan through the first `number` stations of the list.
pub fn best_route(
    shape: Shape,
    stations: &[Station],
    number: usize,
    cells: u64,
    moves: usize,
) -> Result<Route, Refusal>
    ensures { route_answer result ≡ route_of shape stations.now number cells moves }
{
    let len = stations.len();
    let n = load::records(shape, number, len);
    let loaded = load::load(shape, stations, n, load::empty());
    finish(shape, loaded, len, number, cells, moves)
}

// The same for stations by value, of which the first `lent` are lent.
pub fn best_route_of(
    shape: Shape,
    stations: [Station; 64],
    lent: usize,
    number: usize,
    cells: u64,
    moves: usize,
) -> Result<Route, Refusal>
    ensures { route_answer result ≡ route_of shape (take lent stations) number cells moves }
{
    let n = lent.min(MAX_STATIONS);
    best_route(shape, &stations[..n], number, cells, moves)
}
