// What is held between two lines, and room for what a line brings.
ghost use Rattle.std.specs.Prelude.{◌≤◌, length};

use rules::Record;

// The record, how many nodes there are, whether a tick or a restart came, how many lines came, and whether to go on, as the
// definition's state (`Bench.State`) has them.
#[derive(Clone, Copy)]
pub struct Held {
    pub record: Record,
    pub nodes: usize,
    pub begun: bool,
    pub lines: u16,
    pub on: bool,
    ghost few: { nodes ≤ 257 },
}

impl Held {
    ghost use Rattle.std.specs.Prelude.{◌≡◌};
    ghost use Rattle.bench_line.specs.Held.{Starts};

    // No line has come yet.
    pub fn new() -> Held
        ensures { Starts result }
    {
        Held {
            record: Record {
                finished: false,
                ticks: 0,
            },
            nodes: 0,
            begun: false,
            lines: 0,
            on: true,
        }
    }
}

// The table, whose nodes are the first rows.
#[derive(Drop)]
pub struct Rows<'a> {
    pub kinds: &'a mut [u8],
    pub ns: &'a mut [u16],
    pub limits: &'a mut [f64],
    ghost kinds_long: { 257 ≤ length kinds.now },
    ghost ns_long: { 257 ≤ length ns.now },
    ghost limits_long: { 257 ≤ length limits.now },
}

// Room for a line's answers: statuses, and leftovers as patterns and as times.
#[derive(Drop)]
pub struct Answered<'a> {
    pub statuses: &'a mut [u8],
    pub patterns: &'a mut [u64],
    pub leftovers: &'a mut [f64],
    ghost statuses_long: { 1024 ≤ length statuses.now },
    ghost patterns_long: { 1024 ≤ length patterns.now },
    ghost leftovers_long: { 1024 ≤ length leftovers.now },
}
