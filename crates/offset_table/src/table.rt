// What is found in a table of offsets.
ghost use Rattle.std.specs.Prelude.{◌≡◌, true, leb, position};
ghost use Rattle.shape.specs.Shape.{good_shape};
ghost use Rattle.offset_table.specs.Table.{found_in, is_sound, found_of};
ghost use Rattle.offset_table.specs.Answers.{judged_answer, is_table, table_judged};

use super::Finding;
use refusal::Refusal;
use shape::{Element, Shape};

// The first element whose offset is not below the padded size.
fn first_outside(table: &[u64], padded: u64) -> Option<usize>
    ensures { result ≡ position (leb padded) table.now }
{
    table.iter().position(|offset| padded <= *offset)
}

// An offset outside, sought over the whole table; else a shared cell, or neither.
fn find(table: &[u64], padded: u64) -> Finding
    ensures { found_of result ≡ found_in table.now padded }
{
    if let Some(k) = first_outside(table, padded) {
        return Finding::Outside(Element(k as u64));
    }
    match shape::first_pair(table) {
        None => Finding::Sound,
        Some((e, l)) => Finding::Shared(Element(e as u64), Element(l as u64)),
    }
}

// Every offset is inside, and no two are the same.
pub fn is_sound(table: &[u64], padded: u64) -> bool
    ensures { result ≡ is_sound (found_in table.now padded) }
{
    matches!(find(table, padded), Finding::Sound)
}

// At most 4,096 elements, and one offset for each.
pub fn is_table(shape: Shape, table: &[u64]) -> bool
    requires { good_shape shape ≡ true }
    ensures { result ≡ is_table shape table.now }
{
    let n = shape::inner::count_of(shape);
    n <= super::MAX_ELEMENTS && table.len() as u64 == n
}

// Judges a table of a shape's offsets, with its padded size.
pub fn judge_table(shape: Shape, table: &[u64], padded: u64) -> Result<Finding, Refusal>
    ensures { judged_answer result ≡ table_judged shape table.now padded }
{
    if !shape::good_shape(shape) {
        return Err(Refusal::ShapeLimits);
    }
    if !is_table(shape, table) {
        return Err(Refusal::Attribute);
    }
    if radix::MAX_COUNT < padded {
        return Err(Refusal::PaddedSize);
    }
    Ok(find(table, padded))
}
