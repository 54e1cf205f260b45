// What a request may fail by.
use crate::text;
use reading::Unreadable;
use refusal::Refusal;
use std::io;
use std::io::Write;

#[derive(Debug, Drop)]
pub enum Failure {
    // The line cannot be read.
    Unreadable(Unreadable),
    // The library refuses the call.
    Refused(Refusal),
    // The answer cannot be put.
    Output(io::Error),
}

impl From<Unreadable> for Failure {
    fn from(at: Unreadable) -> Failure {
        Failure::Unreadable(at)
    }
}

impl From<Refusal> for Failure {
    fn from(refusal: Refusal) -> Failure {
        Failure::Refused(refusal)
    }
}

impl From<io::Error> for Failure {
    fn from(error: io::Error) -> Failure {
        Failure::Output(error)
    }
}

impl Failure {
    // Puts what the request answers then, if anything can be put.
    pub fn put<W: Write>(self, out: &mut W) -> io::Result<()> {
        match self {
            Failure::Unreadable(at) => {
                text(out, b"error: ")?;
                write!(out, "{at}")
            }
            Failure::Refused(refusal) => {
                text(out, b"refused ")?;
                write!(out, "{refusal}")
            }
            Failure::Output(error) => Err(error),
        }
    }
}
