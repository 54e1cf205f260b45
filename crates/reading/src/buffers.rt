// The buffers that a request lends: their lengths, as its line has them, and their places.
ghost use Rattle.std.specs.Prelude.{◌≡◌, ℕ, ◌+◌, ◌<◌, ◌≤◌, IfOk, length, slice_index, take};

use crate::token::{Line, Unreadable};

// The most places that a buffer has, and as many as it has where the request says nothing.
pub const PLACES: usize = 4096;

// The lengths of the buffer that is read and of the one that is written.
#[derive(Clone, Copy)]
pub struct Lengths {
    pub given: usize,
    pub made: usize,
}

impl<'a> Line<'a> {
    // Reads the length of a buffer.
    fn length_given(&mut self) -> Result<usize, Unreadable>
        ensures { IfOk result (λ count. count ≤ PLACES) }
    {
        let length = self.bounded(PLACES as u64)?;
        Ok(length as usize)
    }

    // Reads the length of a buffer, or nothing where the request ends.
    pub fn buffer_length(&mut self) -> Result<usize, Unreadable>
        ensures { IfOk result (λ count. count ≤ PLACES) }
    {
        if self.has_more() {
            self.length_given()
        } else {
            Ok(PLACES)
        }
    }

    // Reads the lengths of two buffers, or nothing where the request ends.
    pub fn buffer_lengths(&mut self) -> Result<Lengths, Unreadable>
        ensures { IfOk result (λ lengths. (lengths.given ≤ PLACES) × (lengths.made ≤ PLACES)) }
    {
        if !self.has_more() {
            return Ok(Lengths {
                given: PLACES,
                made: PLACES,
            });
        }
        let given = self.length_given()?;
        let made = self.length_given()?;
        Ok(Lengths { given, made })
    }
}

// The first places of a buffer, all where there are fewer.
pub fn front(buffer: &mut [u32], count: usize) -> &mut [u32]
    ensures { result.now ≡ take count buffer.old }
{
    let most = buffer.len();
    &mut buffer[..count.min(most)]
}

// Puts start, start + 1, .. into the places.
pub fn count_up(places: &mut [u32], start: u32)
    ensures { (k : ℕ) → k < length places.new → start + k < u32.MAX → slice_index places.new k ≡ start + k }
{
    let count = places.len().min((u32::MAX - start) as usize);
    for place in 0..count {
        places[place] = start + place as u32;
    }
}
