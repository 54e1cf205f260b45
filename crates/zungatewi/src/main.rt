// The program: answers the requests on standard input, one to a line, by the library's calls.
#![tactic(auto)]

mod input;
mod request;

use std::io;
use writing::Output;

fn main(rt: HostRuntime) -> io::Result<()> {
    let mut out = Output::new(rt.stdout());
    input::serve(&mut rt.stdin(), &mut out)
}
