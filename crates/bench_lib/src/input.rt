// The part of the input that is in hand.
ghost use Rattle.std.specs.Prelude.{◌≤◌};

use crate::fetch::fetch;
use std::io;
use std::io::Read;

// More bytes than the longest line has, and room for many answers.
const INPUT: usize = 65536;

// What was read and is still to be served stands between start and end; last says whether no more bytes come.
#[derive(Drop)]
pub struct Input {
    pub bytes: [u8; INPUT],
    pub start: usize,
    pub end: usize,
    pub last: bool,
    ghost ordered: { start ≤ end },
    ghost within: { end ≤ 65536 },
}

impl Input {
    ghost use Rattle.std.specs.Prelude.{OnOk, OnErr};
    ghost use Rattle.std.specs.Io.KnownBytes.{Keeps};
    ghost use Rattle.bench_lib.specs.Served.{Starts};
    ghost use Rattle.bench_lib.specs.Streams.{ReadsOn};

    // Nothing was read yet.
    pub fn new() -> Input
        ensures { Starts result }
    {
        Input {
            bytes: [0; INPUT],
            start: 0,
            end: 0,
            last: false,
        }
    }

    // What is left is moved to the front, and what comes next is put behind it.
    pub fn read_on<R: Read>(&mut self, from: &mut R) -> io::Result<()>
        ensures ok { OnOk result (ReadsOn (R.remaining from.old) (R.remaining from.new) self.old self.new) }
        ensures err { OnErr result (Keeps (R.remaining from.old) (R.remaining from.new)) }
    {
        let kept = self.end - self.start;
        self.bytes.copy_within(self.start..self.end, 0);
        self.start = 0;
        self.end = kept;
        self.end = fetch(from, &mut self.bytes, kept)?;
        self.last = self.end == kept;
        Ok(())
    }
}
