// Shows number 9 of a route: a list of stations that is one record short, and the same list whole; and that a layout
// that stands twice and a parent that is not earlier are judged before it, on the records lent, the first one's parent
// not at all.
#![tactic(auto)]

use layout::Layout;
use refusal::Refusal;
use route::{Route, Station};
use shape::Shape;
use std::io;

// A route of a table of 5 elements through a number of stations, of which some are lent. Each has one parent, and lists the
// untiled layout of a table of rank 1 so many times.
#[derive(Clone, Copy)]
struct Question {
    lent: usize,
    number: usize,
    parent: usize,
    count: usize,
}

impl Question {
    fn station(self) -> Station {
        let layout = Layout {
            rank: 1,
            minor_to_major: [0; 6],
            tiles: 0,
            tile_len: [0; 3],
            tile: [0; 18],
        };
        Station {
            parent: self.parent,
            count: self.count,
            layouts: [layout; 8],
        }
    }

    fn answer(self) -> Result<Route, Refusal> {
        let shape = Shape {
            rank: 1,
            sizes: [5; 6],
        };
        let stations = [self.station(); 64];
        let lent = self.lent.min(stations.len());
        route::best_route(shape, &stations[..lent], self.number, 100, 0)
    }

    // Prints the total, or the refusal's number.
    fn show(self, rt: &HostRuntime) -> io::Result<()> {
        match self.answer() {
            Ok(route) => println!(rt; "total {}", route.total),
            Err(refusal) => println!(rt; "refused {}", refusal::number(refusal)),
        }
    }
}

fn main(rt: HostRuntime) -> io::Result<()> {
    let whole = Question {
        lent: 3,
        number: 3,
        parent: 0,
        count: 1,
    };
    let short = Question { lent: 2, ..whole };
    let none = Question {
        lent: 0,
        number: 1,
        ..whole
    };
    let longest = Question {
        lent: 64,
        number: 64,
        ..whole
    };
    whole.show(&rt)?;
    short.show(&rt)?;
    none.show(&rt)?;
    longest.show(&rt)?;
    Question { count: 2, ..short }.show(&rt)?;
    Question { count: 2, ..none }.show(&rt)?;
    Question { parent: 1, ..short }.show(&rt)?;
    Question {
        lent: 1,
        parent: 1,
        ..short
    }
    .show(&rt)?;
    Question {
        lent: 1,
        parent: 1,
        ..none
    }
    .show(&rt)
}
