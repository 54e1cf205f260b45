// Which layout of a list makes a table.
ghost use Rattle.std.specs.Prelude.{◌≡◌, true, ◌≤◌, length, position, take};
ghost use Rattle.refusal.specs.Judge.{judge};
ghost use Rattle.shape.specs.Shape.{good_shape, count_of};
ghost use Rattle.layout.specs.Layout.{layout_rules};
ghost use Rattle.offset_table.specs.Makes.{is_maker};
ghost use Rattle.offset_table.specs.Answers.{max_listed, good_question, layouts_kept, sizes_kept, question_rules, breaks_no_rule, named_answer, layout_named};

use super::table::{is_sound, is_table};
use layout::Layout;
use refusal::Refusal;
use shape::Shape;

// A table of the shape, 1 to 64 layouts, and the table is sound.
fn good_question(shape: Shape, table: &[u64], padded: u64, count: usize) -> bool
    requires { good_shape shape ≡ true }
    ensures { result ≡ good_question shape table.now padded count }
{
    is_table(shape, table) && 1 <= count && count <= super::MAX_LISTED && is_sound(table, padded)
}

// Every layout of the list keeps its rule.
fn layouts_kept(shape: Shape, layouts: [Layout; 64], count: usize) -> bool
    requires { count ≤ max_listed }
    ensures { result ≡ layouts_kept shape layouts count }
{
    layouts[..count]
        .iter()
        .all(|layout| layout::good_layout(shape.rank, *layout))
}

// Every padded size of the list is at most 2^40.
fn sizes_kept(shape: Shape, layouts: [Layout; 64], count: usize) -> bool
    requires { (count ≤ max_listed) × (good_shape shape ≡ true) × (layouts_kept shape layouts count ≡ true) }
    ensures { result ≡ sizes_kept shape layouts count }
{
    layouts[..count].iter().all(|layout| layout::inner::padded_capped(shape, *layout)
        <= radix::MAX_COUNT)
}

// The rules of the question: 1, 2, 3, 4.
fn judge_question(
    shape: Shape,
    table: &[u64],
    padded: u64,
    layouts: [Layout; 64],
    count: usize,
) -> Result<(), Refusal>
    ensures { result ≡ judge (question_rules shape table.now padded layouts count) }
{
    if !shape::good_shape(shape) {
        return Err(Refusal::ShapeLimits);
    }
    if !good_question(shape, table, padded, count) {
        return Err(Refusal::Attribute);
    }
    if !layouts_kept(shape, layouts, count) {
        return Err(Refusal::LayoutRule);
    }
    if radix::MAX_COUNT < padded || !sizes_kept(shape, layouts, count) {
        return Err(Refusal::PaddedSize);
    }
    Ok(())
}

// The layout makes the table's offsets and its padded size.
fn is_maker(shape: Shape, layout: Layout, table: &[u64], padded: u64) -> bool
    requires { (judge (layout_rules shape layout) ≡ Ok tt) × (length table.now ≡ count_of shape) }
    ensures { result ≡ is_maker shape table.now padded layout }
{
    layout::inner::padded_cells(shape, layout) == padded
        && table.iter().enumerate().all(|(k, offset)| *offset
            == layout::inner::offset_number(shape, layout, k as u64))
}

// The first layout of the list that makes the table.
fn first_maker(
    shape: Shape,
    table: &[u64],
    padded: u64,
    layouts: [Layout; 64],
    count: usize,
) -> Option<usize>
    requires { breaks_no_rule shape table.now padded layouts count }
    ensures { result ≡ position (is_maker shape table.now padded) (take count layouts) }
{
    layouts[..count]
        .iter()
        .position(|layout| is_maker(shape, *layout, table, padded))
}

// The first layout of the list that makes the table's offsets and its padded size.
pub fn layout_of_table(
    shape: Shape,
    table: &[u64],
    padded: u64,
    layouts: [Layout; 64],
    count: usize,
) -> Result<usize, Refusal>
    ensures { named_answer result ≡ layout_named shape table.now padded layouts count }
{
    judge_question(shape, table, padded, layouts, count)?;
    first_maker(shape, table, padded, layouts, count).ok_or(Refusal::NoLayout)
}
