// A writer behind a buffer, which is written out when it is full. It allocates nothing.
ghost use Rattle.std.specs.Prelude.{◌≤◌};

use std::io;
use std::io::Write;

const SIZE: usize = 8192;

#[derive(Drop)]
pub struct Output<W> {
    writer: W,
    held: [u8; SIZE],
    count: usize,
    ghost within: { count ≤ 8192 },
}

impl<W: Write> Output<W> {
    pub fn new(writer: W) -> Output<W> {
        Output {
            writer,
            held: [0; SIZE],
            count: 0,
        }
    }

    fn write_out(&mut self) -> io::Result<()> {
        self.writer.write_all(&self.held[..self.count])?;
        self.count = 0;
        Ok(())
    }
}

// What is still held when the last byte is put is written out by `flush` alone.
impl<W: Write> Write for Output<W> {
    fn write(&mut self, buf: &[u8]) -> io::Result<usize> {
        if self.count == SIZE {
            self.write_out()?;
        }
        let n = buf.len().min(SIZE - self.count);
        self.held[self.count..self.count + n].copy_from_slice(&buf[..n]);
        self.count += n;
        Ok(n)
    }

    fn flush(&mut self) -> io::Result<()> {
        self.write_out()?;
        self.writer.flush()
    }
}
