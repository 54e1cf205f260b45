// Tiled layouts: padded size, offsets, what a cell holds, the layout card and the fit verdict.
#![tactic(auto)]

pub mod inner;
mod judge;
pub mod parts;
mod share;

ghost use Rattle.std.specs.Prelude.{◌≡◌};
ghost use Rattle.layout.specs.Answers.{padded_answer, padded_size, placed_answer, element_offset, point_offset, held_answer, element_held, carded_answer, layout_card, fitted_answer, fit_verdict};

pub use judge::{good_layout, judge_layout};
use refusal::Refusal;
use shape::{Element, Shape};

// The most tiles of a layout, and of entries of a tile.
pub const MAX_TILES: usize = 3;

pub const MAX_ENTRIES: usize = 6;
// The largest entry of a tile.
pub const MAX_ENTRY: u64 = 1024;

// minor_to_major up to the rank; tiles with their lengths, six places to a tile. What stands past the counts is not read.
#[derive(Clone, Copy)]
pub struct Layout {
    pub rank: usize,
    pub minor_to_major: [u64; 6],
    pub tiles: usize,
    pub tile_len: [usize; 3],
    pub tile: [u64; 18],
}

// The offset of a cell in the padded buffer.
#[derive(Clone, Copy)]
pub struct Offset(pub u64);

// elements/padded and padding/padded, each one division rounded once.
#[derive(Clone, Copy)]
pub struct LayoutCard {
    pub fill: f64,
    pub waste: f64,
}

// Fits, with the spare share of the limit; or over, with the factor by which it passes the limit.
#[derive(Clone, Copy)]
pub enum Fit {
    Fits(f64),
    Over(f64),
}

// How many cells the padded buffer has.
pub fn padded_size(shape: Shape, layout: Layout) -> Result<u64, Refusal>
    ensures { padded_answer result ≡ padded_size shape layout }
{
    judge_layout(shape, layout)?;
    Ok(inner::padded_cells(shape, layout))
}

// The offset of an element.
pub fn offset_of_element(shape: Shape, layout: Layout, element: Element) -> Result<Offset, Refusal>
    ensures { placed_answer result ≡ element_offset shape layout element.0 }
{
    judge_layout(shape, layout)?;
    let n = element.0;
    if n < shape::inner::count_of(shape) {
        Ok(Offset(inner::offset_number(shape, layout, n)))
    } else {
        Err(Refusal::Outside)
    }
}

// The offset of a point.
pub fn offset_of_point(shape: Shape, layout: Layout, point: &[u64]) -> Result<Offset, Refusal>
    ensures { placed_answer result ≡ point_offset shape layout point.now }
{
    judge_layout(shape, layout)?;
    shape::inner::judge_point(shape, point)?;
    Ok(Offset(inner::point_offset(shape, layout, point)))
}

// Which element the cell at an offset holds, or that it is padding.
pub fn element_at(shape: Shape, layout: Layout, offset: Offset) -> Result<Option<Element>, Refusal>
    ensures { held_answer result ≡ element_held shape layout offset.0 }
{
    judge_layout(shape, layout)?;
    let k = offset.0;
    if k < inner::padded_cells(shape, layout) {
        Ok(inner::cell_found(shape, layout, k).map(Element))
    } else {
        Err(Refusal::Outside)
    }
}

// How full the padded buffer is.
pub fn layout_card(shape: Shape, layout: Layout) -> Result<LayoutCard, Refusal>
    ensures { carded_answer result ≡ layout_card shape layout }
{
    judge_layout(shape, layout)?;
    let padded = inner::padded_cells(shape, layout);
    let count = shape::inner::count_of(shape);
    Ok(LayoutCard {
        fill: share::share(count, padded),
        waste: share::share(padded - count, padded),
    })
}

// Whether the padded buffer fits a cell limit.
pub fn fit_verdict(shape: Shape, layout: Layout, limit: u64) -> Result<Fit, Refusal>
    ensures { fitted_answer result ≡ fit_verdict shape layout limit }
{
    judge::judge_fit(shape, layout, limit)?;
    Ok(share::fit_of(inner::padded_cells(shape, layout), limit))
}
