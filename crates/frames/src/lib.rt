// The bench program's frames, each a line of lower-case hexadecimal fields, read from lent bytes.
// A time is a bit pattern throughout, so that a line that is read and written again comes out as it was.
#![tactic(auto)]

mod hex;
mod order;
mod patterns;
mod reader;

pub use order::{Input, admit};
pub use patterns::{bits, time, times};
pub use reader::{count, read};

// The two calls that a line asks for or tells of. Their lines differ in the two digits at the start alone.
#[derive(Clone, Copy)]
pub enum Call {
    Tick,
    Restart,
}

// A call's event. Only an update has a dt; beside any other stands a zero, of which the sign is kept:
// true for minus zero. The theorems of `Undo` are said of it.
#[derive(Clone, Copy)]
pub enum Event {
    Other(bool),
    Update(u64),
}

// The most node lines: one more than a table may have, so that the 257th is refused by the tick.
pub const NODES: usize = 257;

// The most answers of a tick.
pub const ANSWERS: usize = 1024;

// The bits of minus zero: the sign alone.
pub const MINUS_ZERO: u64 = 0x8000000000000000;

// A frame by value, with numbers as a line has them, which may be any. The answers of a call that is asked for stand beside it in two lent slices, statuses and leftovers: the first count of each.
#[derive(Clone, Copy)]
pub enum Frame {
    Node {
        kind: u8,
        n: u16,
        limit: u64,
    },
    Asked {
        call: Call,
        event: Event,
        fuel: u32,
        count: u16,
    },
    Said {
        call: Call,
        no: u8,
        status: u8,
        time: u64,
        visits: u32,
        used: u16,
        extra: u16,
    },
    Malformed {
        line: u16,
    },
}

// Why no frame was read: the line is no frame's, or the lent slices are too short for its answers.
#[derive(Clone, Copy)]
pub enum Unread {
    NoFrame,
    TooShort,
}

// Why nothing was written: there is no such frame, or the lent bytes are too few.
#[derive(Clone, Copy)]
pub enum Unwritten {
    NoFrame,
    TooShort,
}
