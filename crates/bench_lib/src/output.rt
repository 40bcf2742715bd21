// What was printed and not written yet.
ghost use Rattle.std.specs.Prelude.{◌≤◌};

const OUTPUT: usize = 4096;

// The longest line that is printed.
const LINE: usize = 45;

#[derive(Drop)]
pub struct Output {
    pub bytes: [u8; OUTPUT],
    pub written: usize,
    ghost fits: { written ≤ 4096 },
}

impl Output {
    ghost use Rattle.std.specs.Prelude.{◌≡◌, ◌-◌, [], leb};
    ghost use Rattle.bench_lib.specs.Served.{printed};

    // Nothing was printed yet.
    pub fn new() -> Output
        ensures { printed result ≡ [] }
    {
        Output {
            bytes: [0; OUTPUT],
            written: 0,
        }
    }

    // Whether one line more has room.
    pub fn has_room(&self) -> bool
        ensures { result ≡ leb self.now.written (4096 - 45) }
    {
        self.written <= OUTPUT - LINE
    }
}
