// Maps whose smaller point has some of the larger point's coordinates.
ghost use Rattle.std.specs.Prelude.{◌≡◌, true, [], ◌<◌, ◌≤◌, length};
ghost use Rattle.shape.specs.Shape.{max_rank, sizes_of, good_shape};
ghost use Rattle.map_builder.specs.Raw.{encoded};
ghost use Rattle.map_builder.specs.Draft.{steps};
ghost use Rattle.operation_maps.specs.Lists.{select, others};
ghost use Rattle.operation_maps.specs.Selection.{select_map, spread_map};
ghost use Rattle.operation_maps.specs.Operation.{rank_of};
ghost use Rattle.operation_builder.specs.Family.{selection, Chosen};
ghost use Rattle.operation_builder.specs.SelectionDraft.{add_coordinate, CoordinateRoom, CoordinatesRoom, Choosable, keep_next, KeptAs};

use super::Kept;
use indexing::IndexingMap;
use map_builder::{Draft, inner};
use shape::Shape;

// A coordinate of the larger point: the dimension of its place in the list, or a range variable of its own.
fn add_coordinate(d: Draft, sizes: &[u64], list: &[u64], j: usize) -> Draft
    requires { CoordinateRoom d sizes.now list.now j }
    ensures { result ≡ add_coordinate sizes.now list.now j d }
{
    let p = shape::place_of(list, j as u64);
    if p < list.len() {
        return inner::end_result(inner::push_variable(d, p));
    }
    let s = d.map.ranges;
    let e = inner::add_range_to(d, sizes[j] - 1);
    inner::end_result(inner::push_variable(e, expression::MAX_VARIABLES + s))
}

// Every coordinate of the larger point.
fn add_coordinates(d: Draft, sizes: &[u64], list: &[u64]) -> Draft
    requires { CoordinatesRoom d sizes.now list.now }
    ensures { result ≡ steps (add_coordinate sizes.now list.now) (length sizes.now) d }
{
    let mut out = d;
    for i in 0..sizes.len() {
        out = add_coordinate(out, sizes, list, i);
    }
    out
}

// Larger to smaller: the dimensions listed.
fn select_map(sizes: &[u64], list: &[u64]) -> IndexingMap
    requires { Choosable sizes.now list.now }
    ensures { result ≡ encoded (select_map list.now sizes.now) }
{
    let d = inner::add_whole(inner::empty(), sizes);
    let e = inner::add_variables(d, list);
    e.map
}

// Smaller to larger: a range variable for each dimension that is not listed.
fn spread_map(sizes: &[u64], list: &[u64]) -> IndexingMap
    requires { Choosable sizes.now list.now }
    ensures { result ≡ encoded (spread_map list.now sizes.now) }
{
    let d = inner::add_selected(inner::empty(), sizes, list);
    let e = add_coordinates(d, sizes, list);
    e.map
}

// Smaller to larger, or larger to smaller.
fn selection_map(up: bool, sizes: &[u64], list: &[u64]) -> IndexingMap
    requires { Choosable sizes.now list.now }
    ensures { result ≡ encoded (selection up list.now sizes.now) }
{
    if up {
        spread_map(sizes, list)
    } else {
        select_map(sizes, list)
    }
}

// The same over a shape.
pub fn shape_selection(up: bool, shape: Shape, list: &[u64]) -> IndexingMap
    requires { Chosen shape list.now }
    ensures { result ≡ encoded (selection up list.now (sizes_of shape)) }
{
    selection_map(up, &shape.sizes[..shape.rank], list)
}

// Over a shape and the dimensions that a list leaves.
pub fn rest_selection(up: bool, shape: Shape, list: &[u64]) -> IndexingMap
    requires { good_shape shape ≡ true }
    ensures { result ≡ encoded (selection up (others list.now (rank_of shape)) (sizes_of shape)) }
{
    let kept = kept_of(&shape.sizes[..shape.rank], list);
    shape_selection(up, shape, &kept.dims[..kept.count])
}

// No dimension of the shape that a list leaves.
pub fn none_selection(up: bool, shape: Shape, list: &[u64]) -> IndexingMap
    requires { good_shape shape ≡ true }
    ensures { result ≡ encoded (selection up [] (select (others list.now (rank_of shape)) (sizes_of shape))) }
{
    let kept = kept_of(&shape.sizes[..shape.rank], list);
    selection_map(up, &kept.sizes[..kept.count], &[])
}

// Dimension j with its size, unless it is listed.
fn keep(kept: Kept, list: &[u64], j: usize, size: u64) -> Kept
    requires { kept.count < max_rank }
    ensures { result ≡ keep_next list.now j size kept }
{
    if shape::place_of(list, j as u64) < list.len() {
        return kept;
    }
    let k = kept.count;
    let mut dims = kept.dims;
    let mut sizes = kept.sizes;
    dims[k] = j as u64;
    sizes[k] = size;
    Kept {
        count: k + 1,
        dims,
        sizes,
    }
}

// The dimensions that a list leaves, and their sizes.
fn kept_of(sizes: &[u64], list: &[u64]) -> Kept
    requires { length sizes.now ≤ max_rank }
    ensures { KeptAs list.now sizes.now (length sizes.now) result }
{
    let mut out = Kept {
        count: 0,
        dims: [0u64; 6],
        sizes: [0u64; 6],
    };
    for (j, size) in sizes.iter().enumerate() {
        out = keep(out, list, j, *size);
    }
    out
}
