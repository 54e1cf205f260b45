// The request `slice`: the input and a cut for each dimension.
use crate::ways::read_way;
use map_printing::print_map;
use reading::{Line, Unreadable, first_of, put_at};
use std::io::Write;
use writing::Failure;

// The places of a buffer for cuts, of which each has seven bytes of a line at least.
const PLACES: usize = 16384;

// The cuts that a line has: how many there are, and the first of them.
#[derive(Clone, Copy)]
struct Cuts {
    count: usize,
    starts: [u64; PLACES],
    limits: [u64; PLACES],
    strides: [u64; PLACES],
}

impl Cuts {
    // Reads cuts, or none.
    fn read(&mut self, line: &mut Line<'_>) -> Result<(), Unreadable> {
        for _ in 0..line.length() {
            if !line.is_next(b'[') {
                break;
            }
            self.read_cut(line)?;
        }
        Ok(())
    }

    // Reads a cut.
    fn read_cut(&mut self, line: &mut Line<'_>) -> Result<(), Unreadable> {
        line.expect(b'[')?;
        let start = line.unsigned()?;
        line.expect(b':')?;
        let limit = line.unsigned()?;
        line.expect(b':')?;
        let stride = line.unsigned()?;
        line.expect(b']')?;
        put_at(&mut self.starts, self.count, start);
        put_at(&mut self.limits, self.count, limit);
        put_at(&mut self.strides, self.count, stride);
        self.count = self.count.saturating_add(1);
        Ok(())
    }
}

pub fn answer_slice<W: Write>(mut line: Line<'_>, out: &mut W) -> Result<(), Failure> {
    let mut cuts = Cuts {
        count: 0,
        starts: [0; PLACES],
        limits: [0; PLACES],
        strides: [0; PLACES],
    };
    let input = line.shape()?;
    cuts.read(&mut line)?;
    let way = read_way(&mut line)?;
    let starts = first_of(&cuts.starts, cuts.count);
    let limits = first_of(&cuts.limits, cuts.count);
    let strides = first_of(&cuts.strides, cuts.count);
    let map = operations::slice(way, input, starts, limits, strides)?;
    print_map(out, &map)?;
    Ok(())
}
