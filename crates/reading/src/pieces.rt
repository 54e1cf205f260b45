// The pieces of a request: lists, points, shapes and layouts.
ghost use Rattle.std.specs.Prelude.{◌≡◌, take, slice_set};

use crate::token::{Line, Unreadable};
use layout::Layout;
use shape::Shape;

// A list of numbers: how many there are, and the first 7 of them, one more than any record holds.
#[derive(Clone, Copy)]
pub struct List {
    pub count: usize,
    pub items: [u64; 7],
}

impl List {
    // The numbers that it holds.
    pub fn items(&self) -> &[u64]
        ensures { result.now ≡ take self.now.count self.now.items }
    {
        first_of(&self.items, self.count)
    }
}

// The first items, all where there are fewer.
pub fn first_of<T>(items: &[T], count: usize) -> &[T]
    ensures { result.now ≡ take count items.now }
{
    &items[..count.min(items.len())]
}

// Puts an item at a place, if there is such a place.
pub fn put_at<T: Copy>(items: &mut [T], place: usize, item: T)
    ensures { items.new ≡ slice_set items.old place item }
{
    if place < items.len() {
        items[place] = item;
    }
}

// The layout of rank 0 without tiles.
pub fn no_layout() -> Layout
    ensures { (result.rank ≡ 0) × (result.tiles ≡ 0) }
{
    Layout {
        rank: 0,
        minor_to_major: [0; 6],
        tiles: 0,
        tile_len: [0; 3],
        tile: [0; 18],
    }
}

impl<'a> Line<'a> {
    // Reads numbers with commas between them, or none, into a lent buffer, which holds as many as it has places for. The
    // answer is how many there are.
    fn numbers(&mut self, items: &mut [u64]) -> Result<usize, Unreadable> {
        if !self.is_number_next() {
            return Ok(0);
        }
        let most = self.length();
        for place in 0..most {
            put_at(items, place, self.unsigned()?);
            if !self.accept(b',') {
                return Ok(place + 1);
            }
        }
        Ok(most)
    }

    // Reads numbers between two brackets.
    fn between(&mut self, open: u8, close: u8, items: &mut [u64]) -> Result<usize, Unreadable> {
        self.expect(open)?;
        let count = self.numbers(items)?;
        self.expect(close)?;
        Ok(count)
    }

    // Reads a list of dimensions into a lent buffer.
    pub fn dimensions<'b>(&mut self, items: &'b mut [u64]) -> Result<&'b [u64], Unreadable> {
        let count = self.between(b'{', b'}', items)?;
        Ok(first_of(items, count))
    }

    // Reads a table of numbers into a lent buffer.
    pub fn table<'b>(&mut self, items: &'b mut [u64]) -> Result<&'b [u64], Unreadable> {
        let count = self.between(b'(', b')', items)?;
        Ok(first_of(items, count))
    }

    pub fn point(&mut self) -> Result<List, Unreadable> {
        let mut items = [0; 7];
        let count = self.between(b'(', b')', &mut items)?;
        Ok(List { count, items })
    }

    pub fn shape(&mut self) -> Result<Shape, Unreadable> {
        let mut sizes = [0; 6];
        let rank = self.between(b'[', b']', &mut sizes)?;
        Ok(Shape { rank, sizes })
    }

    pub fn layout(&mut self) -> Result<Layout, Unreadable> {
        let mut layout = no_layout();
        self.expect(b'{')?;
        layout.rank = self.numbers(&mut layout.minor_to_major)?;
        if self.accept(b':') {
            self.expect_word(b"T")?;
            self.tiles(&mut layout)?;
        }
        self.expect(b'}')?;
        Ok(layout)
    }

    // Reads one tile or more into a layout.
    fn tiles(&mut self, layout: &mut Layout) -> Result<(), Unreadable> {
        for place in 0..self.length() {
            self.tile(layout, place)?;
            if !self.is_next(b'(') {
                break;
            }
        }
        Ok(())
    }

    // Reads the tile at a place of a layout, which has no room for it past the third.
    fn tile(&mut self, layout: &mut Layout, place: usize) -> Result<(), Unreadable> {
        let mut row = [0; 6];
        let length = self.between(b'(', b')', &mut row)?;
        if place < 3 {
            layout.tile_len[place] = length;
            layout.tile[place * 6..place * 6 + 6].copy_from_slice(&row);
        }
        layout.tiles = place.saturating_add(1);
        Ok(())
    }
}
