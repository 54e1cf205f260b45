// The two sides of a re-tiling: each layout judged and measured once, and of two refusals the lower one. Inner functions.
ghost use Rattle.std.specs.Prelude.{◌≡◌};
ghost use Rattle.refusal.specs.Judge.{judge};
ghost use Rattle.retile.specs.Steps.{Measures, AreBoth, mark_rules};

use layout::parts::Extent;
use layout::{Layout, parts};
use refusal::Refusal;
use shape::Shape;

// The extent, the order and the physical shape of a shape and a layout that break no rule.
#[derive(Clone, Copy)]
pub struct Side {
    pub extent: Extent,
    pub order: [u64; 6],
    pub dims: [u64; 24],
}

// A layout judged and measured.
pub fn side_of(shape: Shape, layout: Layout) -> Result<Side, Refusal>
    ensures { Measures result shape layout }
{
    let mut order = [0u64; 6];
    let mut dims = [0u64; 24];
    let extent = parts::measure(
        shape,
        layout.rank,
        &layout.minor_to_major,
        layout.tiles,
        &layout.tile_len,
        &layout.tile,
        &mut order,
        &mut dims,
    )?;
    Ok(Side {
        extent,
        order,
        dims,
    })
}

// Both sides, or of their refusals the one with the lower number.
pub fn both(a: Result<Side, Refusal>, b: Result<Side, Refusal>) -> Result<(Side, Side), Refusal>
    ensures { AreBoth a b result }
{
    match (a, b) {
        (Ok(x), Ok(y)) => Ok((x, y)),
        (Ok(_), Err(r)) | (Err(r), Ok(_)) => Err(r),
        (Err(r), Err(t)) => {
            if refusal::number(t) < refusal::number(r) {
                Err(t)
            } else {
                Err(r)
            }
        }
    }
}

// The rules of the mark, 2, and of the places lent for each layout's cells, 9.
pub fn judge_mark(
    from: Extent,
    to: Extent,
    source: usize,
    cells: usize,
    mark: u64,
) -> Result<(), Refusal>
    ensures { result ≡ judge (mark_rules from.padded to.padded source cells mark) }
{
    if to.padded < mark {
        return Err(Refusal::Attribute);
    }
    if (source as u64) < from.padded || (cells as u64) < to.padded {
        return Err(Refusal::ShortBuffer);
    }
    Ok(())
}
