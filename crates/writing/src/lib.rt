// The output: a buffer before a writer, what a request may fail by, and how the pieces of an answer are printed.
#![tactic(auto)]

mod failure;
mod output;
mod shown;

ghost use Rattle.std.specs.Prelude.{[], ◌∷◌, OnOk};
ghost use Rattle.std.specs.Io.KnownBytes.{Appends};

pub use failure::Failure;
pub use output::Output;
pub use shown::{Pattern, Spaced, Tuple};
use std::io;
use std::io::Write;

// Puts a byte.
pub fn put<W: Write>(out: &mut W, byte: u8) -> io::Result<()>
    ensures { OnOk result (Appends (W.contents out.old) (W.contents out.new) (byte ∷ [])) }
{
    out.write_all(&[byte])
}

// Puts bytes.
pub fn text<W: Write>(out: &mut W, bytes: &[u8]) -> io::Result<()>
    ensures { OnOk result (Appends (W.contents out.old) (W.contents out.new) bytes.now) }
{
    out.write_all(bytes)
}
