// The words of nodes that no visit has seen.
ghost use Rattle.std.specs.Prelude.{◌≡◌};
ghost use Rattle.refine.specs.Words.{pack};
ghost use Rattle.load.specs.Scans.{with_below};

// Of a node that is made fresh, or starts from its cell; `below`: how many nodes stand below it.
#[tactic(auto, unfolding(refine::specs::Words::pack))]
pub fn word(below: usize, kind: u8, place: u16, mark: u8, fresh: bool) -> u32
    ensures { result ≡ pack below kind place mark fresh 0 }
{
    let node = (below % 256) as u32 + u32::from(kind) * 0x100;
    let cell = u32::from(place) % 256 * 0x10000 + u32::from(mark) % 2 * 0x1000000;
    node + cell + u32::from(fresh) * 0x2000000
}

// The same word, once it is known how many nodes stand below.
pub fn with_below(w: u32, below: usize) -> u32
    ensures { result ≡ with_below w below }
{
    w / 256 * 256 + (below % 256) as u32
}
