// The input: pieces of it, and the lines in them.
ghost use Rattle.std.specs.Prelude.{◌≤◌};

use crate::request::respond;
use std::io;
use std::io::{Read, Write};

// The places for a line, one more than the longest that is read as a request has.
const PLACES: usize = 65536;

// What is held of the present line: its bytes as far as there is room, and whether all of its bytes are spaces.
#[derive(Clone, Copy)]
struct Held {
    text: [u8; PLACES],
    length: usize,
    is_blank: bool,
    ghost within: { length ≤ 65536 },
}

impl Held {
    fn new() -> Held {
        Held {
            text: [0; PLACES],
            length: 0,
            is_blank: true,
        }
    }

    // Keeps a byte of the line.
    fn keep(&mut self, byte: u8) {
        self.is_blank = self.is_blank && byte == b' ';
        if self.length < PLACES {
            self.text[self.length] = byte;
            self.length += 1;
        }
    }

    // Answers the line, by a block that an empty line ends, and starts the next one. A blank line and a comment have no
    // answer.
    fn end<W: Write>(&mut self, out: &mut W) -> io::Result<()> {
        let line = &self.text[..self.length];
        if !self.is_blank && !line.starts_with(b"#") {
            respond(line, out)?;
            writing::text(out, b"\n\n")?;
        }
        self.length = 0;
        self.is_blank = true;
        Ok(())
    }

    // Takes the next bytes of the input: each is kept, or it ends the line.
    fn take<W: Write>(&mut self, piece: &[u8], out: &mut W) -> io::Result<()> {
        for byte in piece {
            match byte {
                b'\n' => self.end(out)?,
                _ => self.keep(*byte),
            }
        }
        Ok(())
    }
}

// Answers the lines as they come. Nothing says that the input ends, so the turns are counted, up to a number that no run
// reaches.
pub fn serve<R: Read, W: Write>(input: &mut R, out: &mut W) -> io::Result<()> {
    let mut held = Held::new();
    let mut chunk = [0; PLACES];
    for _ in 0..u64::MAX {
        let count = input.read(&mut chunk)?;
        if count == 0 {
            break;
        }
        held.take(&chunk[..count], out)?;
        out.flush()?;
    }
    held.end(out)?;
    out.flush()
}
