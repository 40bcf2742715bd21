// The tree on standard input, as frames: its finish bound for the step of the first tick frame, and
// how many such ticks it takes to finish when each is given the answers that stand there.
#![tactic(auto)]

mod input;
mod tree;

use call::Deep;
use frames::NODES;
use lent::CellsMut;
use rules::{BoundAnswer, Event, Record};
use std::{fmt, io};
use tree::{Tick, Tree};

// A bound as it is printed.
#[derive(Clone, Copy)]
struct Told(BoundAnswer);

impl fmt::Display for Told {
    fn fmt<W: fmt::Write>(&self, f: &mut fmt::Formatter<W>) -> fmt::Result {
        match self.0 {
            BoundAnswer::Within(n) => write!(f, "finish bound {n}"),
            BoundAnswer::Never => write!(f, "finish bound none"),
            BoundAnswer::Above => write!(f, "finish bound above 2^53"),
            BoundAnswer::BadTable(place) => write!(f, "bad table at {place}"),
            BoundAnswer::NoBound => write!(f, "finish bound refused"),
        }
    }
}

// A run of cells.
#[derive(Drop)]
struct OwnCells {
    times: [f64; NODES],
    places: [u16; NODES],
    marks: [u8; NODES],
    sinces: [u64; NODES],
}

impl OwnCells {
    fn new() -> OwnCells {
        OwnCells {
            times: [0.0; NODES],
            places: [0; NODES],
            marks: [0; NODES],
            sinces: [0; NODES],
        }
    }
}

// Ticks of one kind until the tree has finished: how many were carried out. None where a thousand were not enough.
fn ticks(tree: &Tree, tick: &Tick) -> Option<u64> {
    let mut cells = OwnCells::new();
    let mut spare = OwnCells::new();
    let mut board = [0u8; NODES];
    let mut record = Record {
        finished: false,
        ticks: 0,
    };
    for _ in 0..1000 {
        let called = call::value(
            &mut Deep,
            record,
            &tree.table(),
            &mut CellsMut {
                times: &mut cells.times,
                places: &mut cells.places,
                marks: &mut cells.marks,
                sinces: &mut cells.sinces,
            },
            &mut CellsMut {
                times: &mut spare.times,
                places: &mut spare.places,
                marks: &mut spare.marks,
                sinces: &mut spare.sinces,
            },
            &mut board,
            Event::Update(tick.step),
            tick.fuel,
            &tick.answers(),
            false,
        );
        record = called.record;
        if record.finished {
            return Some(record.ticks);
        }
    }
    None
}

fn main(rt: HostRuntime) -> io::Result<()> {
    let mut tree = Tree::new();
    let tick = input::read(&mut rt.stdin(), &mut tree)?;
    let step = tick.as_ref().map_or(0.0, |tick| tick.step);
    let bound = bound::finish_bound(&tree.table(), step);
    println!(rt; "{}", Told(bound))?;
    match tick.and_then(|tick| ticks(&tree, &tick)) {
        Some(n) => println!(rt; "finished after {n}"),
        None => println!(rt; "not finished"),
    }
}
