// The requests `route` and `tree`: a shape, a cell limit, a limit on moves, and the stations: their layouts, in a tree
// behind the number of the parent.
#![tactic(auto)]

use reading::{Line, Unreadable, first_of, no_layout, put_at};
use route::Station;
use std::io::Write;
use writing::{Failure, Spaced};

// How the stations stand: each behind the one before it, or behind its parent.
#[derive(Clone, Copy, Debug, PartialEq, Eq)]
enum Form {
    Row,
    Tree,
}

// The station that lists no layout.
fn no_station() -> Station {
    Station {
        parent: 0,
        count: 0,
        layouts: [no_layout(); 8],
    }
}

// Reads the parent of the station at a place: in a tree the number that stands there, else the station before it.
fn read_parent(line: &mut Line<'_>, form: Form, place: usize) -> Result<usize, Unreadable> {
    match form {
        Form::Row => Ok(place.saturating_sub(1)),
        Form::Tree => Ok(line.unsigned()? as usize),
    }
}

// Reads the station at a place: its parent, and one layout or more, of which it holds the first 8.
fn read_station(line: &mut Line<'_>, form: Form, place: usize) -> Result<Station, Unreadable> {
    let mut station = no_station();
    station.parent = read_parent(line, form, place)?;
    for at in 0..line.length() {
        put_at(&mut station.layouts, at, line.layout()?);
        station.count = at + 1;
        if !line.is_next(b'{') {
            break;
        }
    }
    Ok(station)
}

// Reads stations with semicolons between them into a lent buffer, which holds as many as it has places for. The answer
// is how many there are.
fn read_stations(
    line: &mut Line<'_>,
    form: Form,
    stations: &mut [Station],
) -> Result<usize, Unreadable> {
    let most = line.length();
    for place in 0..most {
        put_at(stations, place, read_station(line, form, place)?);
        if !line.accept(b';') {
            return Ok(place + 1);
        }
    }
    Ok(most)
}

// The answer to a route through stations in a row.
pub fn answer_route<W: Write>(line: Line<'_>, out: &mut W) -> Result<(), Failure> {
    answer_stations(line, Form::Row, out)
}

// The same for a tree.
pub fn answer_tree<W: Write>(line: Line<'_>, out: &mut W) -> Result<(), Failure> {
    answer_stations(line, Form::Tree, out)
}

fn answer_stations<W: Write>(mut line: Line<'_>, form: Form, out: &mut W) -> Result<(), Failure> {
    let mut buffer = [no_station(); 64];
    let shape = line.shape()?;
    let cells = line.unsigned()?;
    let moves = line.unsigned()? as usize;
    let number = read_stations(&mut line, form, &mut buffer)?;
    line.finish()?;
    let route = route::best_route(shape, first_of(&buffer, number), number, cells, moves)?;
    let places = Spaced(first_of(&route.places, number));
    write!(out, "plan{places} total {}", route.total)?;
    Ok(())
}
