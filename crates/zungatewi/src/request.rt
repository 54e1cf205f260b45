// The answer to a line, by the name that it starts with.
use division_requests::{answer_multiplier, answer_quotient};
use layout_requests::Request;
use map_requests::{answer_compose, answer_eval, answer_fold, answer_range};
use operation_requests::Operation;
use reading::{Line, Unreadable};
use retile_requests::answer_retile;
use route_requests::{answer_route, answer_tree};
use std::io;
use std::io::Write;
use table_requests::{answer_table, answer_which};
use writing::Failure;

// The longest line that is read as a request.
const LONGEST: usize = 65535;

// The answer to a request for an operation's map, or on shapes and layouts.
fn answer_named<W: Write>(
    name: &[u8],
    at: Unreadable,
    line: Line<'_>,
    out: &mut W,
) -> Result<(), Failure> {
    if let Some(operation) = Operation::named(name) {
        return operation.answer(line, out);
    }
    match Request::named(name) {
        Some(request) => request.answer(line, out),
        None => Err(Failure::Unreadable(at)),
    }
}

fn answer<W: Write>(mut line: Line<'_>, out: &mut W) -> Result<(), Failure> {
    let at = line.unreadable();
    match line.word() {
        b"route" => answer_route(line, out),
        b"tree" => answer_tree(line, out),
        b"table" => answer_table(line, out),
        b"which" => answer_which(line, out),
        b"retile" => answer_retile(line, out),
        b"eval" => answer_eval(line, out),
        b"range" => answer_range(line, out),
        b"fold" => answer_fold(line, out),
        b"compose" => answer_compose(line, out),
        b"multiplier" => answer_multiplier(line, out),
        b"quotient" => answer_quotient(line, out),
        name => answer_named(name, at, line, out),
    }
}

// Answers a line, or puts why there is no answer.
pub fn respond<W: Write>(line: &[u8], out: &mut W) -> io::Result<()> {
    let answered = if line.len() <= LONGEST {
        answer(Line::new(line), out)
    } else {
        Err(Failure::Unreadable(Unreadable(LONGEST)))
    };
    match answered {
        Ok(()) => Ok(()),
        Err(failure) => failure.put(out),
    }
}
