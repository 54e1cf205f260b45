// How the pieces of an answer are printed.
use std::fmt;

// Items between parentheses, with commas between them.
#[derive(Drop)]
pub struct Tuple<'a, T>(pub &'a [T]);

impl<T: fmt::Display> fmt::Display for Tuple<'_, T> {
    fn fmt<W: fmt::Write>(&self, f: &mut fmt::Formatter<W>) -> fmt::Result {
        write!(f, "(")?;
        for (place, item) in self.0.iter().enumerate() {
            if place > 0 {
                write!(f, ", ")?;
            }
            write!(f, "{item}")?;
        }
        write!(f, ")")
    }
}

// Items, each behind a space.
#[derive(Drop)]
pub struct Spaced<'a, T>(pub &'a [T]);

impl<T: fmt::Display> fmt::Display for Spaced<'_, T> {
    fn fmt<W: fmt::Write>(&self, f: &mut fmt::Formatter<W>) -> fmt::Result {
        for item in self.0 {
            write!(f, " {item}")?;
        }
        Ok(())
    }
}

// The pattern of a binary64 number, in 16 digits. The library's are no NaN, which has no pattern here.
#[derive(Clone, Copy, Debug)]
pub struct Pattern(pub f64);

impl fmt::Display for Pattern {
    fn fmt<W: fmt::Write>(&self, f: &mut fmt::Formatter<W>) -> fmt::Result {
        let x = self.0;
        let bits = if x == x { x.to_bits() } else { 0 };
        write!(f, "0x{bits:016x}")
    }
}
