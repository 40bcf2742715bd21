// The tree, and the tick that it is given.
ghost use Rattle.std.specs.Prelude.{◌≤◌};

use frames::{ANSWERS, Event, NODES};
use lent::{Answers, Table};

// The nodes, each a row in the arrays' first places: fixed memory, with how much of it is used beside it.
#[derive(Drop)]
pub struct Tree {
    kinds: [u8; NODES],
    ns: [u16; NODES],
    limits: [f64; NODES],
    nodes: usize,
    ghost few: { nodes ≤ 257 },
}

impl Tree {
    pub fn new() -> Tree {
        Tree {
            kinds: [0; NODES],
            ns: [0; NODES],
            limits: [0.0; NODES],
            nodes: 0,
        }
    }

    pub fn nodes(&self) -> usize {
        self.nodes
    }

    // One node more; None where there is no room.
    pub fn push(&mut self, kind: u8, n: u16, limit: f64) -> Option<()> {
        let at = self.nodes;
        if at == NODES {
            return None;
        }
        self.kinds[at] = kind;
        self.ns[at] = n;
        self.limits[at] = limit;
        self.nodes = at + 1;
        Some(())
    }

    pub fn table(&self) -> Table<'_> {
        Table {
            kinds: &self.kinds[..self.nodes],
            ns: &self.ns[..self.nodes],
            limits: &self.limits[..self.nodes],
        }
    }
}

// A tick: its step, its fuel, and its answers in the arrays' first places.
#[derive(Drop)]
pub struct Tick {
    pub step: f64,
    pub fuel: u32,
    statuses: [u8; ANSWERS],
    leftovers: [f64; ANSWERS],
    count: usize,
    ghost few: { count ≤ 1024 },
}

impl Tick {
    // The tick with an event, fuel and so many answers; an other event has no step, and no bound is for a step of 0. None where
    // there are too many answers.
    pub fn new(
        event: Event,
        fuel: u32,
        count: usize,
        statuses: [u8; ANSWERS],
        patterns: &[u64],
    ) -> Option<Tick> {
        if count > ANSWERS {
            return None;
        }
        let step = match event {
            Event::Other(_) => 0.0,
            Event::Update(dt) => frames::time(dt),
        };
        let mut leftovers = [0.0; ANSWERS];
        frames::times(count, patterns, &mut leftovers);
        Some(Tick {
            step,
            fuel,
            statuses,
            leftovers,
            count,
        })
    }

    pub fn answers(&self) -> Answers<'_> {
        Answers {
            statuses: &self.statuses[..self.count],
            leftovers: &self.leftovers[..self.count],
        }
    }
}
