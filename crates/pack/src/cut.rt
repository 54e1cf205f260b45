// Where the elements are cut into rows. Inner functions.
ghost use Rattle.std.specs.Prelude.{◌≡◌, suc, ◌+◌, ◌*◌, ◌<◌, ◌≤◌, length, drop};
ghost use Rattle.radix.specs.Radix.{max_count, prod, Sizes};
ghost use Rattle.shape.specs.Dimensions.{Permutation};
ghost use Rattle.pack.specs.Rows.{IsCut};

// The elements are cut at the coordinates of one dimension: its place in the order, its size, how many elements a coordinate spans, how many
// steps of so many elements there are, and how many of them the widest row has.
#[derive(Clone, Copy)]
pub struct Cut {
    pub dimension: usize,
    pub place: usize,
    pub size: u64,
    pub span: u64,
    pub steps: u64,
    pub wide: u64,
}

// The width of a row: a power of two whose square is at most the count, most at most.
fn width_of(count: u64, most: u64) -> u64
    requires { (0 < most) × (most ≤ 1024) }
    ensures { (0 < result) × (result ≤ most) }
{
    let mut width: u64 = 1;
    // A `while`: the width doubles.
    while 2 * width <= most && 4 * width * width <= count {
        width *= 2;
    }
    width
}

// The dimension of which a coordinate spans at most so many elements.
fn cut_dimension(sizes: &[u64], most: u64) -> usize
    requires sizes_nonzero { (0 < length sizes.now) × (0 < most) × (most ≤ 1024) }
    requires sizes { Sizes sizes.now }
    ensures { (result < length sizes.now) × (prod (drop (suc result) sizes.now) ≤ most) }
{
    let mut span: u64 = 1;
    for k in (1..sizes.len()).rev() {
        let next = span * sizes[k];
        if most < next {
            return k;
        }
        span = next;
    }
    0
}

// The cut of the sizes in the order p, for a table of so many offsets.
pub fn cut_of(sizes: &[u64], p: &[u64], room: u64) -> Cut
    requires p_len { (length p.now ≡ length sizes.now) × (0 < room) × (room ≤ 1024) }
    requires permutation { Permutation p.now }
    requires sizes { Sizes sizes.now × (prod sizes.now ≤ max_count) }
    ensures { IsCut result sizes.now p.now × (result.wide * result.span ≤ room) }
{
    if sizes.is_empty() {
        return Cut {
            dimension: 0,
            place: 0,
            size: 1,
            span: 1,
            steps: 1,
            wide: 1,
        };
    }
    let most = width_of(radix::product(sizes), room);
    let dimension = cut_dimension(sizes, most);
    let next = dimension + 1;
    let span = radix::product(&sizes[next..]);
    let steps = radix::product(&sizes[..next]);
    let size = sizes[dimension];
    let wide = size.min(most / span);
    let place = shape::place_of(p, dimension as u64);
    Cut {
        dimension,
        place,
        size,
        span,
        steps,
        wide,
    }
}
