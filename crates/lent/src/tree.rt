// A tree's table and cells, to be written.
ghost use Rattle.std.specs.Prelude.{◌≡◌};
ghost use Rattle.rules.specs.Exchange.{room_length};
ghost use Rattle.lent.specs.Lent.{room_in};

#[derive(Drop)]
pub struct TreeMut<'a> {
    pub kinds: &'a mut [u8],
    pub ns: &'a mut [u16],
    pub limits: &'a mut [f64],
    pub times: &'a mut [f64],
    pub places: &'a mut [u16],
    pub marks: &'a mut [u8],
    pub sinces: &'a mut [u64],
}

impl<'a> TreeMut<'a> {
    // How many nodes there is room for.
    pub fn len(&self) -> usize
        ensures { result ≡ room_length (room_in self.now) }
    {
        let states = self
            .places
            .len()
            .min(self.marks.len().min(self.sinces.len()));
        let times = self.limits.len().min(self.times.len().min(states));
        self.kinds.len().min(self.ns.len().min(times))
    }
}
